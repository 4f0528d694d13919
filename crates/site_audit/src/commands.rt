// The command lines that a log tells.
ghost use Rattle.std.specs.Fmt.{decimal};
ghost use Rattle.event_text.specs.Commands.{command_name};
ghost use Rattle.std.specs.Prelude.{◌≡◌, ◌++◌, ◌∷◌, [], ℕ, List, false, true, codes, if◌then◌else◌, Some, None, IfOk, OnOk, MatchOption};
ghost use Rattle.event_text.specs.Cuts.{cut as cut_into, uncut, cut_at};
ghost use Rattle.event_text.specs.Fields.{semicolon};
ghost use Rattle.site_audit.specs.Commands.{can_be_named as can_be, command_for as command_of, fields_text, line_for, line_with, mark, output_text};

use event_text::Command;
use site_base::{Blob, OutOfMemory, Text};
use site_model::Event;
use site_text::Line;
use std::alloc::Global;

/// The line that asks for an event of a checkable of this name, with the moment 0, and with an empty author and comment. `None` if no
/// line can name it, or the event is none that a line can ask for.
pub(crate) fn command_line(
    alloc: Global,
    name: &str,
    event: &Event,
) -> Result<Option<Text>, OutOfMemory>
    ensures { IfOk result (λ line. line ≡ line_for name.now event.now) }
{
    if !can_be_named(name) {
        return Ok(None);
    }
    match cut_name(name) {
        Some((host, own)) => service_line(alloc, host, own, event),
        None => host_line(alloc, name, event),
    }
}

/// Whether a line can name a checkable of this name.
pub(crate) fn can_be_named(name: &str) -> bool
    ensures { result ≡ can_be name.now }
{
    cut_field(name).is_none()
}

/// What stands before the first semicolon, and what after it.
fn cut_field(text: &str) -> Option<(&str, &str)>
    ensures { MatchOption result (cut_at semicolon text.now ≡ uncut) (λ x. cut_at semicolon text.now ≡ cut_into x.0.now x.1.now) }
{
    text.split_once(';')
}

/// The names of a host and of its service; `None` for a host.
pub(crate) fn cut_name(name: &str) -> Option<(&str, &str)>
    ensures { MatchOption result (cut_at mark name.now ≡ uncut) (λ x. cut_at mark name.now ≡ cut_into x.0.now x.1.now) }
{
    name.split_once('!')
}

fn host_line(alloc: Global, host: &str, event: &Event) -> Result<Option<Text>, OutOfMemory>
    ensures { cut_at mark host.now ≡ uncut → IfOk result (λ line. line ≡ line_with (command_of event.now false) host.now event.now) }
{
    let Some(command) = command_for(event, false) else {
        return Ok(None);
    };
    let mut out = begun(alloc, command)?;
    out.push_str(host)?;
    push_fields(&mut out, event)?;
    Ok(Some(out.into_text()?))
}

fn service_line(
    alloc: Global,
    host: &str,
    own: &str,
    event: &Event,
) -> Result<Option<Text>, OutOfMemory>
    ensures { (name : List ℕ) → cut_at mark name ≡ cut_into host.now own.now → IfOk result (λ line. line ≡ line_with (command_of event.now true) name event.now) }
{
    let Some(command) = command_for(event, true) else {
        return Ok(None);
    };
    let mut out = begun(alloc, command)?;
    out.push_str(host)?;
    out.push(';')?;
    out.push_str(own)?;
    push_fields(&mut out, event)?;
    Ok(Some(out.into_text()?))
}

/// How the line of a command begins.
fn begun(alloc: Global, command: Command) -> Result<Line, OutOfMemory>
    ensures { IfOk result (λ line. line ≡ codes "[0] " ++ (command_name command ++ 59 ∷ [])) }
{
    let mut out = Line::new(alloc)?;
    out.push_str("[0] ")?;
    out.push_str(command.name())?;
    out.push(';')?;
    Ok(out)
}

/// The command that asks for an event of a host, or else of a service.
fn command_for(event: &Event, service: bool) -> Option<Command>
    ensures { result ≡ command_of event.now service }
{
    match (event, service) {
        (Event::Result { passive: true, .. }, false) => Some(Command::HostResult),
        (Event::Result { passive: true, .. }, true) => Some(Command::ServiceResult),
        (Event::Result { .. } | Event::Tick, _) => None,
        (Event::Check { forced: false, .. }, false) => Some(Command::HostCheck),
        (Event::Check { forced: false, .. }, true) => Some(Command::ServiceCheck),
        (Event::Check { .. }, false) => Some(Command::ForcedHostCheck),
        (Event::Check { .. }, true) => Some(Command::ForcedServiceCheck),
        (Event::Ack { .. }, false) => Some(Command::AcknowledgeHost),
        (Event::Ack { .. }, true) => Some(Command::AcknowledgeService),
        (Event::Unack, false) => Some(Command::UnacknowledgeHost),
        (Event::Unack, true) => Some(Command::UnacknowledgeService),
        (Event::Down { .. }, false) => Some(Command::HostDowntime),
        (Event::Down { .. }, true) => Some(Command::ServiceDowntime),
        (Event::Undown { .. }, false) => Some(Command::EndHostDowntime),
        (Event::Undown { .. }, true) => Some(Command::EndServiceDowntime),
        (Event::Checks { on: true }, false) => Some(Command::HostChecksOn),
        (Event::Checks { on: true }, true) => Some(Command::ServiceChecksOn),
        (Event::Checks { .. }, false) => Some(Command::HostChecksOff),
        (Event::Checks { .. }, true) => Some(Command::ServiceChecksOff),
        (Event::Notes { on: true }, false) => Some(Command::HostNotesOn),
        (Event::Notes { on: true }, true) => Some(Command::ServiceNotesOn),
        (Event::Notes { .. }, false) => Some(Command::HostNotesOff),
        (Event::Notes { .. }, true) => Some(Command::ServiceNotesOff),
    }
}

/// Adds what follows the names.
fn push_fields(out: &mut Line, event: &Event) -> Result<(), OutOfMemory>
    ensures { OnOk result (out.new ≡ out.old ++ fields_text event.now) }
{
    match event {
        Event::Result {
            status,
            output,
            perf,
            ..
        } => {
            push_field(out, u64::from(*status))?;
            out.push(';')?;
            push_output(out, output.as_str(), perf.as_str())
        }
        Event::Check { moment, .. } => push_field(out, moment.secs()),
        Event::Ack { sticky, notify } => push_acknowledgement(out, *sticky, *notify),
        Event::Down {
            start,
            end,
            fixed,
            duration,
        } => {
            push_field(out, start.secs())?;
            push_field(out, end.secs())?;
            push_length(out, *fixed, *duration)
        }
        Event::Undown { number } => push_field(out, *number),
        _ => Ok(()),
    }
}

/// Adds a number with a semicolon before it.
fn push_field(out: &mut Line, number: u64) -> Result<(), OutOfMemory>
    ensures { OnOk result (out.new ≡ out.old ++ 59 ∷ decimal number) }
{
    out.push(';')?;
    out.push_decimal(number)
}

fn push_acknowledgement(out: &mut Line, sticky: bool, notify: bool) -> Result<(), OutOfMemory>
    ensures { OnOk result (out.new ≡ out.old ++ fields_text (Event.Ack sticky notify)) }
{
    out.push_str(if sticky { ";2" } else { ";1" })?;
    out.push_str(if notify { ";1" } else { ";0" })?;
    out.push_str(";0;;")
}

/// Adds whether a downtime is fixed, and how long it lasts if it isn't.
fn push_length(out: &mut Line, fixed: bool, duration: u64) -> Result<(), OutOfMemory>
    ensures { OnOk result (out.new ≡ out.old ++ ((if fixed then codes ";1;0;" else codes ";0;0;") ++ (decimal duration ++ codes ";;"))) }
{
    out.push_str(if fixed { ";1;0;" } else { ";0;0;" })?;
    out.push_decimal(duration)?;
    out.push_str(";;")
}

/// Adds the output of a check that told these texts.
fn push_output(out: &mut Line, output: &str, perf: &str) -> Result<(), OutOfMemory>
    ensures { OnOk result (out.new ≡ out.old ++ output_text output.now perf.now) }
{
    out.push_str(output)?;
    if perf.is_empty() {
        return Ok(());
    }
    out.push('|')?;
    out.push_str(perf)
}

/// The output of a check that told these texts.
pub(crate) fn output_of(alloc: Global, output: &str, perf: &str) -> Result<Blob, OutOfMemory>
    ensures { IfOk result (λ told. told ≡ output_text output.now perf.now) }
{
    let mut out = Line::new(alloc)?;
    push_output(&mut out, output, perf)?;
    let told = out.into_text()?;
    Blob::copy_of(alloc, told.as_bytes())
}
