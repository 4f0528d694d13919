// The reports among orders that were started.
ghost use Rattle.std.specs.Prelude.{◌++◌, IfOk, IsPermutation};
ghost use Rattle.live_world.specs.Turns.{numbers, reported};

use crate::running::Running;
use site_base::{OutOfMemory, Row};
use site_edge::Report;
use std::alloc::Global;
use std::thread::Threads;

/// Splits orders by whether their reports are there: the reports, and the orders that are left, both in the order in which they
/// were started.
#[tactic(auto, using(crate::proofs::Splits::left_over, crate::proofs::Splits::taken_out))]
pub fn split_off_reports<T: Threads>(
    alloc: Global,
    threads: &T,
    running: Vec<Running>,
) -> Result<(Row<Report>, Vec<Running>), OutOfMemory>
    ensures { IfOk result (λ r. IsPermutation (numbers running.items) (reported r.0 ++ numbers r.1.items)) }
{
    let mut reports = Row::new(alloc);
    let mut left = Vec::new(alloc);
    for order in running {
        if order.has_report() {
            reports.push(order.report(threads)?)?;
        } else {
            left.push(order)?;
        }
    }
    Ok((reports, left))
}
