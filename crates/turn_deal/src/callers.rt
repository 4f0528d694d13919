// Which caller takes which acts.
ghost use Rattle.std.specs.Prelude.{◌≡◌, ◌<◌, ◌≤◌, ◌++◌, ◌∷◌, ℕ, [], filter, length, map, slice_set, IfOk, OnOk};
ghost use Rattle.run_meaning.specs.Dealing.{dealt, goes_to, lines_to};
ghost use Rattle.run_meaning.specs.Turns.{from_on, of_index};
ghost use Rattle.site_posts.specs.Made.{asked_of};
ghost use Rattle.site_posts.specs.Many.{asked_in};
ghost use Rattle.turn_deal.specs.Dealt.{taken_of};

use crate::dealt::{Acts, ReportAct};
use site_base::OutOfMemory;
use site_posts::Act;
use std::alloc::Global;

impl Acts {
    /// All of them by so many workers, of which there is at least one: the first takes the lines, reports go round by their orders, and
    /// ticks by their checkables. Each takes lines, reports, ticks.
    ///
    /// It takes a time that grows with the acts and the workers.
    ///
    /// # Errors
    ///
    /// `OutOfMemory` if there is too little memory for the lists.
    pub fn for_many(self, alloc: Global, workers: u32) -> Result<Vec<Vec<Act>>, OutOfMemory>
        requires { 1 ≤ workers }
        ensures { IfOk result (λ lists. map asked_in lists.items ≡ dealt workers (map asked_of self.lines.items) (map taken_of self.reports.items) (map asked_of self.ticks.items)) }
    {
        let mut lists = lists_with(alloc, self.lines, workers)?;
        deal_reports(&mut lists, self.reports)?;
        deal_ticks(&mut lists, self.ticks)?;
        Ok(lists)
    }
}

/// A list for each of so many callers. That of the first has these acts, and the others are empty.
fn lists_with(alloc: Global, lines: Vec<Act>, callers: u32) -> Result<Vec<Vec<Act>>, OutOfMemory>
    requires { 1 ≤ callers }
    ensures { IfOk result (λ lists. map asked_in lists.items ≡ map (λ k. lines_to k (map asked_of lines.items)) (from_on 0 callers)) }
{
    let mut lists = Vec::with_capacity(alloc, callers as usize)?;
    lists.push(lines)?;
    for caller in 1..callers {
        lists.push(Vec::new(alloc))?;
    }
    Ok(lists)
}

/// Adds the act of each report to the list of its caller.
fn deal_reports(lists: &mut Vec<Vec<Act>>, reports: Vec<ReportAct>) -> Result<(), OutOfMemory>
    requires { 1 ≤ length lists.old.items }
    ensures many { length lists.new.items ≡ length lists.old.items }
    ensures each { (k : ℕ) → OnOk result (of_index k (map asked_in lists.new.items)
        ≡ of_index k (map asked_in lists.old.items) ++ map (λ t. t.asked) (filter (λ t. goes_to (length lists.old.items) k t.order) (map taken_of reports.items))) }
{
    let callers = lists.len() as u64;
    for report in reports {
        add(lists, (report.order % callers) as usize, report.act)?;
    }
    Ok(())
}

/// Adds each tick to the list of its caller.
fn deal_ticks(lists: &mut Vec<Vec<Act>>, ticks: Vec<Act>) -> Result<(), OutOfMemory>
    requires { 1 ≤ length lists.old.items }
    ensures many { length lists.new.items ≡ length lists.old.items }
    ensures each { (k : ℕ) → OnOk result (of_index k (map asked_in lists.new.items)
        ≡ of_index k (map asked_in lists.old.items) ++ filter (λ a. goes_to (length lists.old.items) k a.checkable) (map asked_of ticks.items)) }
{
    let callers = lists.len();
    for tick in ticks {
        add(lists, tick.checkable as usize % callers, tick)?;
    }
    Ok(())
}

/// Adds an act to the list of a caller.
fn add(lists: &mut Vec<Vec<Act>>, caller: usize, act: Act) -> Result<(), OutOfMemory>
    requires { caller < length lists.old.items }
    ensures many { length lists.new.items ≡ length lists.old.items }
    ensures acts { OnOk result (map asked_in lists.new.items
        ≡ slice_set (map asked_in lists.old.items) caller (of_index caller (map asked_in lists.old.items) ++ asked_of act ∷ [])) }
{
    lists[caller].push(act)?;
    Ok(())
}
