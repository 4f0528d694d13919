// The graph of a site's dependencies.
ghost use Rattle.std.specs.Prelude.{◌≡◌, ◌<◌, All, IfOk, length};
ghost use Rattle.site_model.specs.PlainSite.{PlainSite, site_view};
ghost use Rattle.run_meaning.specs.Reachability.{ancestors};
ghost use Rattle.depend_graph.specs.Cycles.{AreOnCycles, IsOnCycle};
ghost use Rattle.depend_graph.specs.Graph.{AreParentsFirst, IsGraphOf, OnCycle};
ghost use Rattle.depend_graph.specs.Parents.{HasParents};
ghost use Rattle.depend_graph.specs.Teams.{AreTeams};

use crate::GraphFault;
use crate::lists::Lists;
use crate::on_cycle::on_cycles;
use crate::parents::parents_in;
use crate::search::all_above;
use crate::teams::{following, leaders_in, leading};
use site_base::OutOfMemory;
use site_model::Site;
use std::alloc::Global;

/// On what the checkables of a site depend: their hosts and the parents of their dependencies, and what
/// these depend on (Icinga 2 documentation, Monitoring Basics, "Dependencies"). It is made once for a site,
/// in a time that grows with the dependencies above each checkable, and lends what `reach` needs of it. It takes four bytes for each
/// ancestor of each checkable, beside what grows with the checkables and the dependencies.
#[derive(Drop)]
pub struct Graph {
    pub(crate) alloc: Global,
    /// The ancestors of each checkable, ascending.
    pub(crate) ancestors: Lists,
    /// Of each checkable, the dependencies that lead a redundancy group or are in none.
    pub(crate) leaders: Lists,
    /// Of each dependency, those of its group that it leads.
    pub(crate) followers: Lists,
}

impl Graph {
    /// The graph of a site.
    ///
    /// # Errors
    ///
    /// `Cycle` where some dependency's child is reached from its parent, by steps from child to parent, where a service's host
    /// is a parent too. It names all such dependencies, ascending.
    pub fn build(alloc: Global, site: &Site) -> Result<Graph, GraphFault>
        requires { HasParents (site_view site.now) }
        ensures graph { IfOk result (IsGraphOf (site_view site.now)) }
        ensures free { IfOk result (λ _. All (λ d. ¬ IsOnCycle (site_view site.now) d) (site_view site.now).depends) }
        ensures cycle { OnCycle result (AreOnCycles (site_view site.now)) }
    {
        let parents = parents_in(alloc, site)?;
        let depends = on_cycles(alloc, site, &parents)?;
        if !depends.is_empty() {
            return Err(GraphFault::Cycle { depends });
        }
        let ancestors = all_above(alloc, &parents)?;
        Ok(Graph::with_teams(alloc, site, ancestors)?)
    }

    /// The graph, once the ancestors are known.
    fn with_teams(alloc: Global, site: &Site, ancestors: Lists) -> Result<Graph, OutOfMemory>
        requires { HasParents (site_view site.now) }
        ensures ancestors { IfOk result (λ g. g.ancestors ≡ ancestors) }
        ensures teams { IfOk result (λ g. AreTeams (site_view site.now) g.leaders g.followers) }
    {
        let depends = site.depends.as_slice();
        let firsts = leaders_in(alloc, depends)?;
        Ok(Graph {
            alloc,
            ancestors,
            leaders: leading(alloc, depends, firsts.as_slice(), site.checkables.len())?,
            followers: following(alloc, firsts.as_slice())?,
        })
    }

    /// The checkables on which one depends, ascending. It takes no memory.
    pub fn ancestors(&self, checkable: u32) -> &[u32]
        requires { checkable < length self.now.ancestors }
        ensures { (s : PlainSite) → IsGraphOf s self.now → result.now ≡ ancestors s checkable }
    {
        self.ancestors.at(checkable as usize)
    }

    /// The same, parents before their children: those that have fewer ancestors themselves come first.
    pub(crate) fn parents_first(&self, checkable: u32) -> Result<Vec<u32>, OutOfMemory>
        requires { checkable < length self.now.ancestors }
        ensures { (s : PlainSite) → IsGraphOf s self.now → IfOk result (λ v. AreParentsFirst s checkable v.items) }
    {
        let mut order = Vec::from_slice(self.alloc, self.ancestors(checkable))?;
        order.sort_unstable_by_key(|ancestor| self.ancestors.len_of(*ancestor as usize));
        Ok(order)
    }
}
