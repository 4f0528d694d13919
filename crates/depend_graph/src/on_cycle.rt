// The dependencies on a cycle.
ghost use Rattle.std.specs.Prelude.{◌≡◌, ◌≢◌, ◌≤◌, ◌<◌, [], true, false, IfOk, All, length};
ghost use Rattle.site_model.specs.PlainSite.{PlainSite, site_view};
ghost use Rattle.run_meaning.specs.Reachability.{parents_of};
ghost use Rattle.depend_graph.specs.Clearing.{AreCleared};
ghost use Rattle.depend_graph.specs.Cycles.{AreOnCycles, IsOnCycle};
ghost use Rattle.depend_graph.specs.Parents.{AreParents, has, HasParents};
ghost use Rattle.depend_graph.specs.Search.{AreBelow};

use crate::clearing::cleared;
use crate::lists::Lists;
use crate::parents::parents_in;
use crate::search::above;
use site_base::{OutOfMemory, Row};
use site_model::{DependSpec, Site};
use std::alloc::Global;

/// The dependencies of a site whose child is reached from its parent, by steps from child to parent, where a service's host is
/// a parent too; ascending (Icinga 2 documentation, Monitoring Basics, "Dependencies"). If there is no cycle, it takes a time
/// that grows with the checkables and their parents. Else the ancestors of the parent of each dependency whose child is on a
/// cycle or below one are looked at and dropped.
pub fn depends_on_cycles(alloc: Global, site: &Site) -> Result<Row<u32>, OutOfMemory>
    requires { HasParents (site_view site.now) }
    ensures some { IfOk result (λ ds. ds ≢ [] → AreOnCycles (site_view site.now) ds) }
    ensures none { IfOk result (λ ds. ds ≡ [] → All (λ d. ¬ IsOnCycle (site_view site.now) d) (site_view site.now).depends) }
{
    let parents = parents_in(alloc, site)?;
    on_cycles(alloc, site, &parents)
}

/// The same by the parents of each checkable.
pub(crate) fn on_cycles(
    alloc: Global,
    site: &Site,
    parents: &Lists,
) -> Result<Row<u32>, OutOfMemory>
    requires sound { HasParents (site_view site.now) }
    requires parents { AreParents (site_view site.now) parents.now }
    ensures some { IfOk result (λ ds. ds ≢ [] → AreOnCycles (site_view site.now) ds) }
    ensures none { IfOk result (λ ds. ds ≡ [] → All (λ d. ¬ IsOnCycle (site_view site.now) d) (site_view site.now).depends) }
{
    let cleared = cleared(alloc, parents)?;
    let mut marks = vec![in alloc; 0; parents.len()]?;
    let mut found = Vec::new(alloc);
    for (place, depend) in site.depends.as_slice().iter().enumerate() {
        let mark = place as u32 + 1;
        if is_on_cycle(alloc, depend, parents, cleared.as_slice(), mark, &mut marks)? {
            found.push(place as u32)?;
        }
    }
    Ok(Row::from(found))
}

/// Whether a dependency's child is its own parent, or one of its parent's ancestors, which are marked by this mark where the
/// child isn't cleared.
fn is_on_cycle(
    alloc: Global,
    depend: &DependSpec,
    parents: &Lists,
    cleared: &[bool],
    mark: u32,
    marks: &mut Vec<u32>,
) -> Result<bool, OutOfMemory>
    requires child { depend.now.child < length parents.now }
    requires parent { depend.now.parent < length parents.now }
    requires below { AreBelow (length parents.now) parents.now }
    requires cleared { AreCleared parents.now cleared.now }
    requires length { length marks.old.items ≡ length parents.now }
    requires unmarked { All (λ m. m < mark) marks.old.items }
    ensures length { length marks.new.items ≡ length parents.now }
    ensures marked { All (λ m. m ≤ mark) marks.new.items }
    ensures yes { (s : PlainSite) → AreParents s parents.now → IfOk result (λ b. b ≡ true → IsOnCycle s depend.now) }
    ensures no { (s : PlainSite) → AreParents s parents.now → has depend.now.parent (parents_of s depend.now.child) ≡ true →
        IfOk result (λ b. b ≡ false → ¬ IsOnCycle s depend.now) }
{
    if cleared[depend.child as usize] {
        return Ok(false);
    }
    if depend.child == depend.parent {
        return Ok(true);
    }
    let found = above(alloc, parents, depend.parent as usize, mark, marks)?;
    Ok(is_among(depend.child, found.as_slice()))
}

/// Whether a number is among these.
fn is_among(number: u32, numbers: &[u32]) -> bool
    ensures { result ≡ has number numbers.now }
{
    numbers.contains(&number)
}
