// What is said, in told order.
ghost use Rattle.std.specs.Prelude.{◌≡◌, ◌++◌, slice_get, Some, IfOk, OnOk};
ghost use Rattle.site_audit.specs.Told.{line_in, lines_at, refused_report as refused_one, report_in, reports_at, reports_with};

use crate::telling::Said;
use site_base::{Blob, OutOfMemory, Row};
use site_edge::Report;
use std::alloc::Global;

/// The lines among what is said at these places, in this order.
pub(crate) fn pick_lines(
    alloc: Global,
    said: &[Said],
    order: &[usize],
) -> Result<Row<Blob>, OutOfMemory>
    ensures { IfOk result (λ r. r ≡ lines_at said.now order.now) }
{
    let mut lines = Row::new(alloc);
    for place in order {
        add_line(alloc, said, *place, &mut lines)?;
    }
    Ok(lines)
}

#[tactic(auto, using(crate::proofs::Loops::line_there, crate::proofs::Loops::no_line_there))]
fn add_line(
    alloc: Global,
    said: &[Said],
    place: usize,
    lines: &mut Row<Blob>,
) -> Result<(), OutOfMemory>
    ensures { OnOk result (lines.new ≡ lines.old ++ line_in (slice_get said.now place)) }
{
    if place >= said.len() {
        return Ok(());
    }
    add_told_line(alloc, &said[place], lines)?;
    Ok(())
}

fn add_told_line(alloc: Global, said: &Said, lines: &mut Row<Blob>) -> Result<(), OutOfMemory>
    ensures { OnOk result (lines.new ≡ lines.old ++ line_in (Some said.now)) }
{
    match said {
        Said::Line(line) => lines.push(Blob::copy_of(alloc, line.as_bytes())?),
        Said::Report(_) => Ok(()),
        Said::Lacking(_) => Ok(()),
        Said::Tick => Ok(()),
    }
}

/// The reports among what is said at these places, in this order, and then those of these orders that are refused.
pub(crate) fn pick_reports(
    alloc: Global,
    said: &[Said],
    order: &[usize],
    refused: &[u64],
) -> Result<Row<Report>, OutOfMemory>
    ensures { IfOk result (λ r. r ≡ reports_with refused.now said.now order.now) }
{
    let mut reports = told_reports(alloc, said, order)?;
    for number in refused {
        reports.push(refused_report(alloc, *number))?;
    }
    Ok(reports)
}

fn told_reports(alloc: Global, said: &[Said], order: &[usize]) -> Result<Row<Report>, OutOfMemory>
    ensures { IfOk result (λ r. r ≡ reports_at said.now order.now) }
{
    let mut reports = Row::new(alloc);
    for place in order {
        add_report(alloc, said, *place, &mut reports)?;
    }
    Ok(reports)
}

#[tactic(auto, using(crate::proofs::Loops::report_there, crate::proofs::Loops::no_report_there))]
fn add_report(
    alloc: Global,
    said: &[Said],
    place: usize,
    reports: &mut Row<Report>,
) -> Result<(), OutOfMemory>
    ensures { OnOk result (reports.new ≡ reports.old ++ report_in (slice_get said.now place)) }
{
    if place >= said.len() {
        return Ok(());
    }
    add_told_report(alloc, &said[place], reports)?;
    Ok(())
}

fn add_told_report(alloc: Global, said: &Said, reports: &mut Row<Report>) -> Result<(), OutOfMemory>
    ensures { OnOk result (reports.new ≡ reports.old ++ report_in (Some said.now)) }
{
    match said {
        Said::Report(report) => reports.push(copy_of(alloc, report)?),
        Said::Line(_) => Ok(()),
        Said::Lacking(_) => Ok(()),
        Said::Tick => Ok(()),
    }
}

fn copy_of(alloc: Global, report: &Report) -> Result<Report, OutOfMemory>
    ensures { IfOk result (λ r. r ≡ report.now) }
{
    Ok(Report {
        order: report.order,
        status: report.status,
        output: Blob::copy_of(alloc, report.output.as_slice())?,
    })
}

/// A report of an order that takes none.
fn refused_report(alloc: Global, order: u64) -> Report
    ensures { result ≡ refused_one order }
{
    Report {
        order,
        status: 0,
        output: Blob::new(alloc),
    }
}
