// The lines of entries.
ghost use Rattle.std.specs.Prelude.{◌≡◌, ◌<◌, ◌++◌, false, length, map, All, IfOk, OnOk};
ghost use Rattle.site_model.specs.PlainSite.{site_view};
ghost use Rattle.site_text.specs.Entries.{effect_text, entry_line, head_text, list_text, lists_text, parts_text, sight_text, start_text, state_text, status_text, void_text, IsDecisionOf, IsPrintable};

use crate::decisions::push_decisions;
use crate::events::push_event;
use crate::line::Line;
use crate::site_names::push_checkable;
use site_base::{OutOfMemory, Text};
use site_model::{Entry, Sight, Site, State};
use std::alloc::Global;

/// The line of an entry of a checkable: its place in the checkable's history, its caller and moment, the
/// event, with `void` behind one that had no effect, the state after it, what was seen of other
/// checkables and what was decided on notifications, with a newline. Names are quoted.
pub fn print_entry(
    alloc: Global,
    entry: &Entry,
    checkable: u32,
    site: &Site,
) -> Result<Text, OutOfMemory>
    requires { IsPrintable (site_view site.now) checkable entry.now }
    ensures { IfOk result (λ t. t ≡ entry_line (site_view site.now) checkable entry.now) }
{
    let mut out = Line::new(alloc)?;
    push_entry(&mut out, entry, checkable, site)?;
    out.push('\n')?;
    out.into_text()
}

/// Adds the line of an entry without its newline, as [`print_entry`] prints it.
pub fn push_entry(
    out: &mut Line,
    entry: &Entry,
    checkable: u32,
    site: &Site,
) -> Result<(), OutOfMemory>
    requires { IsPrintable (site_view site.now) checkable entry.now }
    ensures { OnOk result (out.new ≡ out.old ++ (start_text (site_view site.now) checkable entry.now ++ (effect_text entry.now ++ lists_text (site_view site.now) entry.now))) }
{
    push_start(out, entry, checkable, site)?;
    push_effect(out, entry)?;
    push_lists(out, entry, site)
}

/// Adds the checkable's name, and which entry of its history this is.
#[tactic(auto, unfolding(crate::specs::Entries::start_text))]
fn push_start(out: &mut Line, entry: &Entry, checkable: u32, site: &Site) -> Result<(), OutOfMemory>
    requires { checkable < length site.now.checkables }
    ensures { OnOk result (out.new ≡ out.old ++ start_text (site_view site.now) checkable entry.now) }
{
    out.push_str("entry ")?;
    push_checkable(out, site, checkable)?;
    out.push(' ')?;
    push_head(out, entry.number, entry.caller, entry.moment.secs())
}

/// Adds the event and the state after it.
#[tactic(auto, unfolding(crate::specs::Entries::effect_text))]
fn push_effect(out: &mut Line, entry: &Entry) -> Result<(), OutOfMemory>
    ensures { OnOk result (out.new ≡ out.old ++ effect_text entry.now) }
{
    push_event(out, &entry.event)?;
    out.push_str(void_mark(entry.taken))?;
    out.push_str(" -> ")?;
    push_status(out, entry.state, entry.hard, entry.attempt)
}

/// Adds what was seen and what was decided.
#[tactic(auto, unfolding(crate::specs::Entries::lists_text))]
fn push_lists(out: &mut Line, entry: &Entry, site: &Site) -> Result<(), OutOfMemory>
    requires seen { All (λ sight. sight.checkable < length site.now.checkables) entry.now.sights }
    requires decided { All (IsDecisionOf (site_view site.now)) entry.now.decisions }
    ensures { OnOk result (out.new ≡ out.old ++ lists_text (site_view site.now) entry.now) }
{
    out.push_str(" | ")?;
    push_sights(out, entry.sights.as_slice(), site)?;
    out.push_str(" | ")?;
    push_decisions(out, entry.decisions.as_slice(), site)
}

fn push_head(out: &mut Line, number: u64, caller: u32, moment: u64) -> Result<(), OutOfMemory>
    ensures { OnOk result (out.new ≡ out.old ++ head_text number caller moment) }
{
    out.push_decimal(number)?;
    out.push_str(" by ")?;
    out.push_decimal(u64::from(caller))?;
    out.push_str(" at ")?;
    out.push_decimal(moment)?;
    out.push_str(": ")
}

fn void_mark(taken: bool) -> &'static str
    ensures { result.now ≡ void_text taken }
{
    if taken { "" } else { " void" }
}

fn push_status(out: &mut Line, state: State, hard: bool, attempt: u32) -> Result<(), OutOfMemory>
    ensures { OnOk result (out.new ≡ out.old ++ status_text state hard attempt) }
{
    out.push_str(state_name(state))?;
    out.push_str(if hard { " HARD " } else { " SOFT " })?;
    out.push_decimal(u64::from(attempt))
}

/// The name of a state.
pub fn state_name(state: State) -> &'static str
    ensures { result.now ≡ state_text state }
{
    match state {
        State::Okay => "OK",
        State::Warning => "Warning",
        State::Critical => "Critical",
        State::Unknown => "Unknown",
        State::Up => "Up",
        State::Down => "Down",
    }
}

/// Adds what was seen, or a dash where nothing was.
#[tactic(auto, using(crate::proofs::Parts::joined))]
fn push_sights(out: &mut Line, sights: &[Sight], site: &Site) -> Result<(), OutOfMemory>
    requires { All (λ sight. sight.checkable < length site.now.checkables) sights.now }
    ensures { OnOk result (out.new ≡ out.old ++ list_text (map (sight_text (site_view site.now)) sights.now)) }
{
    if sights.is_empty() {
        out.push('-')
    } else {
        push_each_sight(out, sights, site)
    }
}

fn push_each_sight(out: &mut Line, sights: &[Sight], site: &Site) -> Result<(), OutOfMemory>
    requires { All (λ sight. sight.checkable < length site.now.checkables) sights.now }
    ensures { OnOk result (out.new ≡ out.old ++ parts_text false (map (sight_text (site_view site.now)) sights.now)) }
{
    for (i, sight) in sights.iter().enumerate() {
        if i > 0 {
            out.push_str(", ")?;
        }
        push_sight(out, sight, site)?;
    }
    Ok(())
}

fn push_sight(out: &mut Line, sight: &Sight, site: &Site) -> Result<(), OutOfMemory>
    requires { sight.now.checkable < length site.now.checkables }
    ensures { OnOk result (out.new ≡ out.old ++ sight_text (site_view site.now) sight.now) }
{
    push_checkable(out, site, sight.checkable)?;
    out.push(' ')?;
    out.push_decimal(sight.count)
}
