// What a turn gives.
ghost use Rattle.std.specs.Prelude.{◌≡◌, ◌≤◌, ◌++◌, map, IfOk, OnOk};
ghost use Rattle.site_model.specs.PlainSite.{site_view};
ghost use Rattle.run_meaning.specs.Dealing.{line_events, line_refusals, report_refusals, still, taken_reports};
ghost use Rattle.run_text.specs.TurnReading.{lines_read, report_read};
ghost use Rattle.site_posts.specs.Made.{asked_of};
ghost use Rattle.lasting_problems.specs.Noted.{late_in};
ghost use Rattle.turn_deal.specs.Dealt.{refusal_of, taken_of, tick_of, with_outstanding};

use crate::dealt::{Acts, Dealt};
use crate::lines::{LinesDealt, deal_lines};
use crate::parts::deal_by_parts;
use crate::reports::deal_reports;
use crate::ticks::add_ticks;
use check_plan::CheckPlan;
use lasting_problems::Problems;
use site_base::{Moment, OutOfMemory};
use site_edge::{Report, Turn};
use site_model::Site;
use std::alloc::Global;
use std::thread::Threads;

/// The acts that a turn at a moment gives, and what it refuses: those of its lines, those of the reports of checks that could not be
/// started and then of the turn's, and the ticks of problems that last.
///
/// It takes a time that grows with the lines, with the reports times the logarithm of how many orders have none, and with the problems that
/// last.
///
/// # Errors
///
/// `OutOfMemory` if there is too little memory for an act or a refusal. Any number of the reports was taken then.
pub fn deal(
    alloc: Global,
    site: &Site,
    plan: &mut CheckPlan,
    problems: &Problems,
    not_started: &[Report],
    turn: &Turn,
    moment: Moment,
) -> Result<Dealt, OutOfMemory>
    ensures lines { IfOk result (λ d. map asked_of d.acts.lines.items ≡ line_events (lines_read (site_view site.now) turn.now.lines)) }
    ensures reports { IfOk result (λ d. map taken_of d.acts.reports.items ≡ taken_reports plan.old.orders.outstanding (map report_read not_started.now ++ map report_read turn.now.reports)) }
    ensures ticks { IfOk result (λ d. map asked_of d.acts.ticks.items ≡ map tick_of (late_in moment problems.now)) }
    ensures refusals { IfOk result (λ d. map refusal_of d.refusals.items ≡
        line_refusals 1 (lines_read (site_view site.now) turn.now.lines) ++ report_refusals plan.old.orders.outstanding (map report_read not_started.now ++ map report_read turn.now.reports)) }
    ensures plan { OnOk result (plan.new ≡ with_outstanding (still (map report_read not_started.now ++ map report_read turn.now.reports) plan.old.orders.outstanding) plan.old) }
{
    let lines = deal_lines(alloc, site, 0, turn.lines.as_slice())?;
    deal_rest(alloc, plan, problems, not_started, turn, moment, lines)
}

/// What [`deal`] gives. So many threads at most read the lines, each a part of them; if there are few lines no thread is made.
///
/// # Errors
///
/// As of [`deal`].
pub fn deal_by_many<R: Threads + Sync>(
    rt: &R,
    alloc: Global,
    site: &Site,
    plan: &mut CheckPlan,
    problems: &Problems,
    not_started: &[Report],
    turn: &Turn,
    moment: Moment,
    threads: u32,
) -> Result<Dealt, OutOfMemory>
    requires { 1 ≤ threads }
    ensures lines { IfOk result (λ d. map asked_of d.acts.lines.items ≡ line_events (lines_read (site_view site.now) turn.now.lines)) }
    ensures reports { IfOk result (λ d. map taken_of d.acts.reports.items ≡ taken_reports plan.old.orders.outstanding (map report_read not_started.now ++ map report_read turn.now.reports)) }
    ensures ticks { IfOk result (λ d. map asked_of d.acts.ticks.items ≡ map tick_of (late_in moment problems.now)) }
    ensures refusals { IfOk result (λ d. map refusal_of d.refusals.items ≡
        line_refusals 1 (lines_read (site_view site.now) turn.now.lines) ++ report_refusals plan.old.orders.outstanding (map report_read not_started.now ++ map report_read turn.now.reports)) }
    ensures plan { OnOk result (plan.new ≡ with_outstanding (still (map report_read not_started.now ++ map report_read turn.now.reports) plan.old.orders.outstanding) plan.old) }
{
    let lines = deal_by_parts(rt, alloc, site, turn.lines.as_slice(), threads)?;
    deal_rest(alloc, plan, problems, not_started, turn, moment, lines)
}

/// Deals reports and ticks beside what the lines give.
fn deal_rest(
    alloc: Global,
    plan: &mut CheckPlan,
    problems: &Problems,
    not_started: &[Report],
    turn: &Turn,
    moment: Moment,
    lines: LinesDealt,
) -> Result<Dealt, OutOfMemory>
    ensures lines { IfOk result (λ d. d.acts.lines.items ≡ lines.acts.items) }
    ensures reports { IfOk result (λ d. map taken_of d.acts.reports.items ≡ taken_reports plan.old.orders.outstanding (map report_read not_started.now ++ map report_read turn.now.reports)) }
    ensures ticks { IfOk result (λ d. map asked_of d.acts.ticks.items ≡ map tick_of (late_in moment problems.now)) }
    ensures refusals { IfOk result (λ d. map refusal_of d.refusals.items ≡
        map refusal_of lines.refusals.items ++ report_refusals plan.old.orders.outstanding (map report_read not_started.now ++ map report_read turn.now.reports)) }
    ensures plan { OnOk result (plan.new ≡ with_outstanding (still (map report_read not_started.now ++ map report_read turn.now.reports) plan.old.orders.outstanding) plan.old) }
{
    let LinesDealt {
        acts: lines,
        mut refusals,
    } = lines;
    let mut reports = Vec::new(alloc);
    deal_reports(alloc, plan, not_started, &mut reports, &mut refusals)?;
    deal_reports(
        alloc,
        plan,
        turn.reports.as_slice(),
        &mut reports,
        &mut refusals,
    )?;
    let mut ticks = Vec::new(alloc);
    let late = problems.late(alloc, moment)?;
    add_ticks(late.as_slice(), &mut ticks)?;
    Ok(Dealt {
        acts: Acts {
            lines,
            reports,
            ticks,
        },
        refusals,
    })
}
