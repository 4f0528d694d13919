// The events that commands ask for.
ghost use Rattle.std.specs.Prelude.{◌≡◌, ◌≤◌, [], IfOk};
ghost use Rattle.std.specs.List.{slice_get};
ghost use Rattle.site_model.specs.PlainSite.{site_view};
ghost use Rattle.event_text.specs.Kinds.{event_of as event_asked, has_span as span_holds, is_open_to as open_to, limits_of, passive_event};
ghost use Rattle.event_text.specs.Numbers.{AreWithin, host_status as status_of_host};

use crate::kind::Kind;
use crate::lookups::takes_passive;
use crate::numbers::number;
use plugin_line::read_output;
use site_base::{Moment, OutOfMemory};
use site_model::{Event, Site};
use std::alloc::Global;

/// Whether a downtime starts before its end, and a flexible one has a duration.
pub(crate) fn has_span(kind: Kind, numbers: &[u64]) -> bool
    ensures { result ≡ span_holds kind numbers.now }
{
    match kind {
        Kind::Downtime => {
            number(numbers, 0) < number(numbers, 1)
                && (number(numbers, 2) == 1 || number(numbers, 4) > 0)
        }
        Kind::HostResult
        | Kind::ServiceResult
        | Kind::Check { .. }
        | Kind::Acknowledge
        | Kind::Unacknowledge
        | Kind::EndDowntime
        | Kind::Checks { .. }
        | Kind::Notes { .. } => true,
    }
}

/// Whether the checkable at a place takes what is asked: a result only if it takes passive ones.
pub(crate) fn is_open_to(site: &Site, kind: Kind, place: u32) -> bool
    ensures { result ≡ open_to kind (slice_get (site_view site.now).checkables place) }
{
    match kind {
        Kind::HostResult | Kind::ServiceResult => takes_passive(site, place),
        Kind::Check { .. }
        | Kind::Acknowledge
        | Kind::Unacknowledge
        | Kind::Downtime
        | Kind::EndDowntime
        | Kind::Checks { .. }
        | Kind::Notes { .. } => true,
    }
}

/// The event that is asked for with these numbers and this last field.
pub(crate) fn event_of(
    alloc: Global,
    kind: Kind,
    numbers: &[u64],
    last: &str,
) -> Result<Event, OutOfMemory>
    requires { AreWithin (limits_of kind) numbers.now }
    ensures { IfOk result (λ e. e ≡ event_asked kind numbers.now last.now) }
{
    match kind {
        Kind::HostResult => passive(alloc, host_status(number(numbers, 0)), last),
        Kind::ServiceResult => passive(alloc, number(numbers, 0), last),
        Kind::Check { forced } => Ok(check(number(numbers, 0), forced)),
        Kind::Acknowledge => Ok(Event::Ack {
            sticky: number(numbers, 0) == 2,
            notify: number(numbers, 1) == 1,
        }),
        Kind::Unacknowledge => Ok(Event::Unack),
        Kind::Downtime => Ok(downtime(numbers)),
        Kind::EndDowntime => Ok(Event::Undown {
            number: number(numbers, 0),
        }),
        Kind::Checks { on } => Ok(Event::Checks { on }),
        Kind::Notes { on } => Ok(Event::Notes { on }),
    }
}

/// The status of a host's passive result: 0 as it is, and each other as 2, since the host is then down.
fn host_status(status: u64) -> u64
    ensures value { result ≡ status_of_host status }
    ensures few { result ≤ 2 }
{
    if status == 0 { 0 } else { 2 }
}

fn passive(alloc: Global, status: u64, output: &str) -> Result<Event, OutOfMemory>
    requires { status ≤ 255 }
    ensures { IfOk result (λ e. e ≡ passive_event status output.now) }
{
    let told = read_output(alloc, output.as_bytes(), status as u8)?;
    Ok(Event::Result {
        status: told.status,
        passive: true,
        output: told.output,
        perf: told.perf,
    })
}

fn check(secs: u64, forced: bool) -> Event
    requires { secs ≤ Moment.LAST }
    ensures { result ≡ Event.Check secs forced }
{
    Event::Check {
        moment: Moment::of(secs).unwrap(),
        forced,
    }
}

/// A downtime. The duration of a fixed one isn't kept.
fn downtime(numbers: &[u64]) -> Event
    requires { AreWithin (limits_of Kind.Downtime) numbers.now }
    ensures { result ≡ event_asked Kind.Downtime numbers.now [] }
{
    let fixed = number(numbers, 2) == 1;
    Event::Down {
        start: Moment::of(number(numbers, 0)).unwrap(),
        end: Moment::of(number(numbers, 1)).unwrap(),
        fixed,
        duration: if fixed { 0 } else { number(numbers, 4) },
    }
}
