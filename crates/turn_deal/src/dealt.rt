// What a turn gives and refuses.
ghost use Rattle.std.specs.Prelude.{◌≡◌, ◌++◌, map, IfOk};
ghost use Rattle.site_posts.specs.Made.{asked_of};
ghost use Rattle.turn_deal.specs.Dealt.{taken_of};

use crate::refusal::Refusal;
use site_base::OutOfMemory;
use site_posts::Act;

/// The act of a report that is taken, with the number of its order.
#[derive(Drop)]
pub struct ReportAct {
    pub order: u64,
    pub act: Act,
}

/// The acts that a turn gives: those of its lines, of reports and of problems that last.
#[derive(Drop)]
pub struct Acts {
    pub lines: Vec<Act>,
    pub reports: Vec<ReportAct>,
    pub ticks: Vec<Act>,
}

/// The acts that a turn gives, and what it refuses.
#[derive(Drop)]
pub struct Dealt {
    pub acts: Acts,
    pub refusals: Vec<Refusal>,
}

impl Acts {
    /// All of them, as one caller takes them: lines, reports, ticks.
    ///
    /// # Errors
    ///
    /// `OutOfMemory` if there is too little memory for the list.
    pub fn for_one(self) -> Result<Vec<Act>, OutOfMemory>
        ensures { IfOk result (λ acts. map asked_of acts.items ≡ map asked_of self.lines.items ++ (map (λ t. t.asked) (map taken_of self.reports.items) ++ map asked_of self.ticks.items)) }
    {
        let Acts {
            lines: mut acts,
            reports,
            mut ticks,
        } = self;
        for report in reports {
            acts.push(report.act)?;
        }
        acts.append(&mut ticks)?;
        Ok(acts)
    }
}
