// What the reports of orders give.
ghost use Rattle.std.specs.Prelude.{◌≡◌, ◌++◌, ◌∷◌, [], map, OnOk};
ghost use Rattle.run_meaning.specs.Dealing.{report_refusals, still, taken_reports};
ghost use Rattle.run_text.specs.TurnReading.{report_read};
ghost use Rattle.turn_deal.specs.Dealt.{refusal_of, taken_of, with_outstanding};

use crate::dealt::ReportAct;
use crate::refusal::Refusal;
use check_plan::CheckPlan;
use plugin_line::read_output;
use site_base::OutOfMemory;
use site_edge::Report;
use site_model::Event;
use site_posts::Act;
use std::alloc::Global;

/// Adds what these reports give: the result of a check for the first report of an order that was given and has none, and a refusal
/// for each other.
pub(crate) fn deal_reports(
    alloc: Global,
    plan: &mut CheckPlan,
    reports: &[Report],
    acts: &mut Vec<ReportAct>,
    refusals: &mut Vec<Refusal>,
) -> Result<(), OutOfMemory>
    ensures events { OnOk result (map taken_of acts.new.items ≡ map taken_of acts.old.items ++ taken_reports plan.old.orders.outstanding (map report_read reports.now)) }
    ensures refusals { OnOk result (map refusal_of refusals.new.items ≡ map refusal_of refusals.old.items ++ report_refusals plan.old.orders.outstanding (map report_read reports.now)) }
    ensures plan { OnOk result (plan.new ≡ with_outstanding (still (map report_read reports.now) plan.old.orders.outstanding) plan.old) }
{
    for report in reports {
        deal_report(alloc, plan, report, acts, refusals)?;
    }
    Ok(())
}

/// Adds what a report gives.
fn deal_report(
    alloc: Global,
    plan: &mut CheckPlan,
    report: &Report,
    acts: &mut Vec<ReportAct>,
    refusals: &mut Vec<Refusal>,
) -> Result<(), OutOfMemory>
    ensures events { OnOk result (map taken_of acts.new.items ≡ map taken_of acts.old.items ++ taken_reports plan.old.orders.outstanding (report_read report.now ∷ [])) }
    ensures refusals { OnOk result (map refusal_of refusals.new.items ≡ map refusal_of refusals.old.items ++ report_refusals plan.old.orders.outstanding (report_read report.now ∷ [])) }
    ensures plan { OnOk result (plan.new ≡ with_outstanding (still (report_read report.now ∷ []) plan.old.orders.outstanding) plan.old) }
{
    let order = report.order;
    match plan.take_report(order) {
        None => refusals.push(Refusal::Report { order })?,
        Some(checkable) => {
            let read = read_output(alloc, report.output.as_slice(), report.status)?;
            acts.push(ReportAct {
                order,
                act: Act {
                    checkable,
                    event: Event::Result {
                        status: read.status,
                        passive: false,
                        output: read.output,
                        perf: read.perf,
                    },
                },
            })?;
        }
    }
    Ok(())
}
