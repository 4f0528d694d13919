// Dependencies of one child that stand in one redundancy group.
ghost use Rattle.std.specs.Prelude.{◌≡◌, ◌<◌, ◌^◌, ◌++◌, ◌∷◌, [], ℕ, List, All, IfOk, OnOk, length};
ghost use Rattle.site_model.specs.declared.depend_spec.DependSpec.{DependSpec};
ghost use Rattle.run_meaning.specs.Turns.{of_index};
ghost use Rattle.depend_graph.specs.Teams.{AreFirsts, leader_in, all_leaders, leading as leading_in, following as following_in};

use crate::lists::Lists;
use site_base::{OutOfMemory, Row};
use site_model::DependSpec;
use std::alloc::Global;
use std::collections::HashMap;

/// For each dependency the first of those that stand together with it, itself where it is in no group.
pub(crate) fn leaders_in(alloc: Global, depends: &[DependSpec]) -> Result<Row<u32>, OutOfMemory>
    requires { length depends.now < 2 ^ 32 }
    ensures { IfOk result (λ r. r ≡ all_leaders depends.now) }
{
    let mut leaders = Vec::new(alloc);
    let mut firsts = HashMap::new(alloc);
    for (place, depend) in depends.iter().enumerate() {
        leaders.push(leader_of(&mut firsts, depend, place as u32)?)?;
    }
    Ok(Row::from(leaders))
}

/// The first that stands together with a dependency. The map has those of the dependencies before it,
/// by child and group.
fn leader_of<'a>(
    firsts: &mut HashMap<(u32, &'a str), u32>,
    depend: &'a DependSpec,
    place: u32,
) -> Result<u32, OutOfMemory>
    ensures leader { (ds : List DependSpec) → length ds ≡ place → AreFirsts firsts.old (λ r. r.now) ds → IfOk result (λ r. r ≡ leader_in ds depend.now) }
    ensures firsts { (ds : List DependSpec) → length ds ≡ place → AreFirsts firsts.old (λ r. r.now) ds → OnOk result (AreFirsts firsts.new (λ r. r.now) (ds ++ depend.now ∷ [])) }
{
    let Some(group) = &depend.group else {
        return Ok(place);
    };
    let key = (depend.child, group.as_str());
    if let Some(leader) = firsts.get(&key) {
        return Ok(*leader);
    }
    firsts.insert(key, place)?;
    Ok(place)
}

/// For each of so many checkables, those of its dependencies that lead others or stand alone.
pub(crate) fn leading(
    alloc: Global,
    depends: &[DependSpec],
    leaders: &[u32],
    count: usize,
) -> Result<Lists, OutOfMemory>
    requires length { length leaders.now ≡ length depends.now }
    requires few { length depends.now < 2 ^ 32 }
    requires children { All (λ d. d.child < count) depends.now }
    ensures length { IfOk result (λ l. length l ≡ count) }
    ensures rows { IfOk result (λ l. (c : ℕ) → of_index c l ≡ leading_in 0 c depends.now leaders.now) }
{
    let mut rows = Lists::empty(alloc, count)?;
    for (place, depend) in depends.iter().enumerate() {
        if leaders[place] as usize == place {
            rows.push(depend.child as usize, place as u32)?;
        }
    }
    Ok(rows)
}

/// For each dependency, those that it leads.
pub(crate) fn following(alloc: Global, leaders: &[u32]) -> Result<Lists, OutOfMemory>
    requires few { length leaders.now < 2 ^ 32 }
    requires leaders { All (λ k. k < length leaders.now) leaders.now }
    ensures length { IfOk result (λ l. length l ≡ length leaders.now) }
    ensures rows { IfOk result (λ l. (k : ℕ) → of_index k l ≡ following_in 0 k leaders.now) }
{
    let mut rows = Lists::empty(alloc, leaders.len())?;
    for (place, leader) in leaders.iter().enumerate() {
        if *leader as usize != place {
            rows.push(*leader as usize, place as u32)?;
        }
    }
    Ok(rows)
}
