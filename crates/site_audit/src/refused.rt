// Command lines that are refused.
ghost use Rattle.std.specs.Prelude.{◌≡◌, Some, map, IfOk};
ghost use Rattle.site_model.specs.PlainSite.{check_view};
ghost use Rattle.site_audit.specs.Commands.{closed_line as line_closed, closed_to_name as closed_name, host_to_name as host_name, is_closed_to_name as is_closed, is_host_to_name as is_host, refused_with, with_host as around};

use crate::commands::{can_be_named, command_line, cut_name};
use event_text::LineFault;
use site_base::{Blob, OutOfMemory, Text};
use site_model::{CheckSpec, Event};
use std::alloc::Global;

/// A line that is refused so, if this is the first host that a line can name, and that the first checkable that takes no passive
/// results and that one can name. `None` if there is no such one.
pub(crate) fn refused_line(
    alloc: Global,
    host: &Option<Text>,
    closed: &Option<Text>,
    fault: LineFault,
) -> Result<Option<Blob>, OutOfMemory>
    ensures { IfOk result (λ line. line ≡ refused_with host.now closed.now fault) }
{
    match fault {
        LineFault::NotText => Ok(Some(Blob::copy_of(alloc, &[255])?)),
        LineFault::NoBracket => plain(alloc, ""),
        LineFault::BadMoment => plain(alloc, "[x] "),
        LineFault::UnknownCommand => plain(alloc, "[0] X"),
        LineFault::FieldCount => plain(alloc, "[0] ENABLE_HOST_CHECK"),
        LineFault::UnknownCheckable => plain(alloc, "[0] ENABLE_HOST_CHECK;"),
        LineFault::BadNumber => with_host(alloc, "[0] SCHEDULE_HOST_CHECK;", ";x", host),
        LineFault::BadSpan => with_host(alloc, "[0] SCHEDULE_HOST_DOWNTIME;", ";1;1;1;0;0;;", host),
        LineFault::PassiveOff => closed_line(alloc, closed),
    }
}

fn plain(alloc: Global, text: &str) -> Result<Option<Blob>, OutOfMemory>
    ensures { IfOk result (λ line. line ≡ Some text.now) }
{
    Ok(Some(Blob::copy_of(alloc, text.as_bytes())?))
}

/// The line with the name of a host in its midst.
fn with_host(
    alloc: Global,
    front: &str,
    back: &str,
    host: &Option<Text>,
) -> Result<Option<Blob>, OutOfMemory>
    ensures { IfOk result (λ line. line ≡ around front.now back.now host.now) }
{
    let Some(host) = host else {
        return Ok(None);
    };
    let mut text = Text::copy_of(alloc, front)?;
    text.push_str(host.as_str())?;
    text.push_str(back)?;
    plain(alloc, text.as_str())
}

/// A passive result for a checkable that takes none.
fn closed_line(alloc: Global, closed: &Option<Text>) -> Result<Option<Blob>, OutOfMemory>
    ensures { IfOk result (λ line. line ≡ line_closed closed.now) }
{
    let Some(name) = closed else {
        return Ok(None);
    };
    let event = Event::Result {
        status: 0,
        passive: true,
        output: Text::new(alloc),
        perf: Text::new(alloc),
    };
    match command_line(alloc, name.as_str(), &event)? {
        Some(line) => plain(alloc, line.as_str()),
        None => Ok(None),
    }
}

/// The name of the first host that a line can name.
pub(crate) fn host_to_name(checks: &[CheckSpec]) -> Result<Option<Text>, OutOfMemory>
    ensures { IfOk result (λ name. name ≡ host_name (map check_view checks.now)) }
{
    for check in checks {
        if is_host_to_name(check) {
            return Ok(Some(check.name.clone()?));
        }
    }
    Ok(None)
}

fn is_host_to_name(check: &CheckSpec) -> bool
    ensures { result ≡ is_host (check_view check.now) }
{
    let name = check.name.as_str();
    can_be_named(name) && cut_name(name).is_none()
}

/// The name of the first checkable that takes no passive results and that a line can name.
pub(crate) fn closed_to_name(checks: &[CheckSpec]) -> Result<Option<Text>, OutOfMemory>
    ensures { IfOk result (λ name. name ≡ closed_name (map check_view checks.now)) }
{
    for check in checks {
        if is_closed_to_name(check) {
            return Ok(Some(check.name.clone()?));
        }
    }
    Ok(None)
}

fn is_closed_to_name(check: &CheckSpec) -> bool
    ensures { result ≡ is_closed (check_view check.now) }
{
    can_be_named(check.name.as_str()) && !check.passive
}
