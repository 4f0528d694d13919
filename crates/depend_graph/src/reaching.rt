// Whether checkables are reachable.
ghost use Rattle.std.specs.Prelude.{◌≡◌, ◌<◌, IfOk, length, map};
ghost use Rattle.site_model.specs.PlainSite.{site_view};
ghost use Rattle.run_meaning.specs.Reachability.{ancestors, reach_of};
ghost use Rattle.depend_graph.specs.Graph.{IsGraphOf};
ghost use Rattle.depend_graph.specs.Outlooks.{outlook_of};
ghost use Rattle.depend_graph.specs.Reaching.{reach_as};

use crate::outlook::Outlook;
use crate::positions::Positions;
use crate::{Graph, Purpose, Reach};
use site_base::{Moment, OutOfMemory};
use site_model::{Site, View};
use time_range::Zone;

impl Graph {
    /// Whether a checkable is reachable for a purpose at a moment, by what its ancestors show (Icinga 2 documentation,
    /// Monitoring Basics, "Dependencies" and "Redundancy Groups"). The sights are those of its ancestors, ascending. It takes a time
    /// that grows with the dependencies above the checkable.
    ///
    /// # Errors
    ///
    /// `OutOfMemory` if there is none for the number and the place of each ancestor and a flag for it.
    pub fn reach(
        &self,
        site: &Site,
        checkable: u32,
        sights: &[(u32, View)],
        purpose: Purpose,
        moment: Moment,
        zone: &Zone,
    ) -> Result<Reach, OutOfMemory>
        requires graph { IsGraphOf (site_view site.now) self.now }
        requires checkable { checkable < length (site_view site.now).checkables }
        requires sights { map (λ s. s.0) sights.now ≡ ancestors (site_view site.now) checkable }
        ensures { IfOk result (λ r. reach_as r ≡ reach_of (outlook_of (site_view site.now) zone.now purpose moment sights.now) checkable) }
    {
        let above = self.ancestors(checkable);
        let order = self.parents_first(checkable)?;
        let positions = Positions::of(self.alloc, above)?;
        let outlook = Outlook {
            site,
            leaders: &self.leaders,
            followers: &self.followers,
            above,
            positions: &positions,
            sights,
            purpose,
            moment,
            zone,
        };
        let mut blocked = vec![in self.alloc; false; above.len()]?;
        for ancestor in order.as_slice() {
            let is_held = outlook.reach_at(*ancestor, blocked.as_slice()).is_held();
            if let Some(place) = outlook.place_of(*ancestor) {
                blocked[place] = is_held;
            }
        }
        Ok(outlook.reach_at(checkable, blocked.as_slice()))
    }
}
