// What the entries of a block tell.
ghost use Rattle.std.specs.Prelude.{◌≡◌, IfOk};
ghost use Rattle.site_audit.specs.Telling.{event_said, report_of, result_said};

use crate::commands::{command_line, output_of};
use site_base::{OutOfMemory, Text};
use site_edge::Report;
use site_model::Event;
use std::alloc::Global;

/// An order that has no result yet, which wasn't started if a macro is missing.
#[derive(Clone, Copy)]
pub(crate) struct Open {
    pub(crate) number: u64,
    pub(crate) missing: bool,
}

/// What an entry tells.
#[derive(Drop)]
pub(crate) enum Said {
    /// A command line.
    Line(Text),
    Report(Report),
    /// No report: it is the result of this order, for which a macro is missing.
    Lacking(u64),
    /// Nothing: it is a tick.
    Tick,
}

/// What an event of a checkable of this name tells, whose order is this one. `None` if no line can name it, or it has no order and this
/// is a result.
pub(crate) fn say(
    alloc: Global,
    name: &str,
    order: Option<Open>,
    event: &Event,
) -> Result<Option<Said>, OutOfMemory>
    ensures { IfOk result (λ said. said ≡ event_said name.now order event.now) }
{
    match event {
        Event::Result {
            status,
            passive: false,
            output,
            perf,
        } => say_result(alloc, order, *status, output.as_str(), perf.as_str()),
        Event::Tick => Ok(Some(Said::Tick)),
        _ => Ok(command_line(alloc, name, event)?.map(Said::Line)),
    }
}

/// What the result of an order tells.
fn say_result(
    alloc: Global,
    order: Option<Open>,
    status: u8,
    output: &str,
    perf: &str,
) -> Result<Option<Said>, OutOfMemory>
    ensures { IfOk result (λ said. said ≡ result_said order status output.now perf.now) }
{
    match order {
        Some(order) => Ok(Some(say_report(alloc, order, status, output, perf)?)),
        None => Ok(None),
    }
}

fn say_report(
    alloc: Global,
    order: Open,
    status: u8,
    output: &str,
    perf: &str,
) -> Result<Said, OutOfMemory>
    ensures { IfOk result (λ said. said ≡ report_of order status output.now perf.now) }
{
    if order.missing {
        return Ok(Said::Lacking(order.number));
    }
    let output = output_of(alloc, output, perf)?;
    Ok(Said::Report(Report {
        order: order.number,
        status,
        output,
    }))
}
