// The texts of events.
ghost use Rattle.std.specs.Prelude.{◌≡◌, ◌++◌, OnOk};
ghost use Rattle.std.specs.Fmt.{decimal};
ghost use Rattle.site_text.specs.Entries.{event_text, length_text, on_text};

use crate::line::Line;
use site_base::OutOfMemory;
use site_model::Event;

/// Adds an event.
pub fn push_event(out: &mut Line, event: &Event) -> Result<(), OutOfMemory>
    ensures { OnOk result (out.new ≡ out.old ++ event_text event.now) }
{
    match event {
        Event::Result {
            status,
            passive,
            ..
        } => push_numbered(
            out,
            if *passive { "passive " } else { "result " },
            u64::from(*status),
        ),
        Event::Tick => out.push_str("tick"),
        Event::Ack { sticky, notify } => push_acknowledgement(out, *sticky, *notify),
        Event::Unack => out.push_str("unack"),
        Event::Down {
            start,
            end,
            fixed,
            duration,
        } => {
            push_numbered(out, "down ", start.secs())?;
            push_numbered(out, " ", end.secs())?;
            push_length(out, *fixed, *duration)
        }
        Event::Undown { number } => push_numbered(out, "undown ", *number),
        Event::Checks { on } => push_switch(out, "checks ", *on),
        Event::Notes { on } => push_switch(out, "notes ", *on),
        Event::Check { moment, forced } => {
            push_numbered(
                out,
                if *forced { "forced " } else { "check " },
                moment.secs(),
            )
        }
    }
}

fn push_numbered(out: &mut Line, word: &str, number: u64) -> Result<(), OutOfMemory>
    ensures { OnOk result (out.new ≡ out.old ++ (word.now ++ decimal number)) }
{
    out.push_str(word)?;
    out.push_decimal(number)
}

fn push_acknowledgement(out: &mut Line, sticky: bool, notify: bool) -> Result<(), OutOfMemory>
    ensures { OnOk result (out.new ≡ out.old ++ event_text (Event.Ack sticky notify)) }
{
    out.push_str(if sticky { "ack sticky" } else { "ack normal" })?;
    out.push_str(if notify { " notify" } else { " quiet" })
}

fn push_length(out: &mut Line, fixed: bool, duration: u64) -> Result<(), OutOfMemory>
    ensures { OnOk result (out.new ≡ out.old ++ length_text fixed duration) }
{
    if fixed {
        out.push_str(" fixed")
    } else {
        push_numbered(out, " flexible ", duration)
    }
}

fn push_switch(out: &mut Line, word: &str, on: bool) -> Result<(), OutOfMemory>
    ensures { OnOk result (out.new ≡ out.old ++ (word.now ++ on_text on)) }
{
    out.push_str(word)?;
    out.push_str(if on { "on" } else { "off" })
}
