// What the engine keeps.
ghost use Rattle.std.specs.Prelude.{◌≡◌};

use check_plan::CheckPlan;
use checkable_core::Checkable;
use depend_graph::Graph;
use lasting_problems::Problems;
use site_base::Moment;
use site_edge::Report;
use site_model::Site;
use std::alloc::Global;
use time_range::Zone;

/// A site with all that is kept of its run.
#[derive(Drop)]
pub(crate) struct EngineState {
    pub(crate) alloc: Global,
    pub(crate) site: Site,
    pub(crate) graph: Graph,
    pub(crate) zone: Zone,
    /// The checkables, by index.
    pub(crate) books: Vec<Checkable>,
    pub(crate) plan: CheckPlan,
    pub(crate) problems: Problems,
    /// The reports of orders whose macros are missing, which the next turn takes first.
    pub(crate) not_started: Vec<Report>,
    /// How many turns were taken.
    pub(crate) turns: u64,
    /// The last turn's moment; 0 before the first.
    pub(crate) moment: Moment,
}

impl EngineState {
    /// The site and its checkables.
    pub(crate) fn into_parts(self) -> (Site, Vec<Checkable>)
        ensures site { result.0 ≡ self.site }
        ensures books { result.1.items ≡ self.books.items }
    {
        (self.site, self.books)
    }
}
