// In which order entries are made.
ghost use Rattle.std.specs.Prelude.{◌≡◌, ℕ, map, IfOk, MatchOption};
ghost use Rattle.site_model.specs.PlainSite.{site_view};
ghost use Rattle.depend_graph.specs.Graph.{IsGraphOf};
ghost use Rattle.round_check.specs.Ordered.{AreRanked, IsOrderOf, IsOutside, told_by_rank};

use crate::Told;
use depend_graph::Graph;
use site_base::OutOfMemory;
use site_model::Site;
use std::alloc::Global;

/// What is told of an entry, with how many ancestors its checkable has.
#[derive(Drop)]
pub(crate) struct Ranked {
    pub(crate) rank: usize,
    pub(crate) told: Told,
}

/// What is told, so that what is told of ancestors comes first. `None` if something is told of no checkable of the site.
pub(crate) fn parents_first(
    alloc: Global,
    site: &Site,
    graph: &Graph,
    told: Vec<Told>,
) -> Result<Option<Vec<Ranked>>, OutOfMemory>
    requires { IsGraphOf (site_view site.now) graph.now }
    ensures { IfOk result (λ r. MatchOption r (IsOutside (site_view site.now) told.items) (λ order. IsOrderOf (site_view site.now) told.items (map told_by_rank order.items))) }
{
    match with_ranks(alloc, site, graph, told)? {
        Some(list) => Ok(Some(by_rank(site, graph, list)?)),
        None => Ok(None),
    }
}

/// What is told, with the numbers of ancestors.
fn with_ranks(
    alloc: Global,
    site: &Site,
    graph: &Graph,
    told: Vec<Told>,
) -> Result<Option<Vec<Ranked>>, OutOfMemory>
    requires { IsGraphOf (site_view site.now) graph.now }
    ensures { IfOk result (λ r. MatchOption r (IsOutside (site_view site.now) told.items) (λ list. AreRanked (site_view site.now) list.items × (map told_by_rank list.items ≡ told.items))) }
{
    let mut list = Vec::with_capacity(alloc, told.len())?;
    for told in told {
        if told.checkable as usize >= site.checkables.len() {
            return Ok(None);
        }
        let rank = graph.ancestors(told.checkable).len();
        list.push(Ranked { rank, told })?;
    }
    Ok(Some(list))
}

/// The same by these numbers; those of one number keep their order.
fn by_rank(_site: &Site, _graph: &Graph, list: Vec<Ranked>) -> Result<Vec<Ranked>, OutOfMemory>
    requires graph { IsGraphOf (site_view _site.now) _graph.now }
    requires ranked { AreRanked (site_view _site.now) list.items }
    ensures { IfOk result (λ order. IsOrderOf (site_view _site.now) (map told_by_rank list.items) (map told_by_rank order.items)) }
{
    let mut order = list;
    order.sort_by_key(|one| one.rank)?;
    Ok(order)
}
