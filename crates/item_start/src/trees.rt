// The trees of values.
ghost use Rattle.std.specs.Prelude.{◌≡◌, IfOk, [], map};
ghost use Rattle.site_base.specs.View.{view};
ghost use Rattle.dsl_value.specs.Loads.{Fits};
ghost use Rattle.eval_work.specs.Kept.{Named, PairsNamed};
ghost use Rattle.eval_work.specs.Works.{state_of, plain_pair, Gives};
ghost use Rattle.commit_meaning.specs.Starts.{tree_at as tree_from, trees_at as trees_from};
ghost use Rattle.item_start.specs.Stops.{IsTreeStop};

use dsl_value::{TreeFault, Value};
use eval_work::{Stop, Work, fault};
use site_base::{DiagKind, Place, Text, Tree};
use std::alloc::Global;

/// The tree of a value. At the place stands `Cyclic` if a cell lies inside itself, `FunctionValue` where a function lies in the
/// value, and `SpaceLimit` where the tree costs more than 16,777,216 units: the first of these that a walk meets which goes depth
/// first. The keys in the tree rise, and it costs no more than that.
#[tactic(auto, unfolding(commit_meaning::specs::Starts::tree_at))]
pub fn tree_at(work: &Work, place: Place, value: &Value) -> Result<Tree, Stop>
    requires { Named work.now.store value.now }
    ensures gives { Gives view result (state_of work.now) (tree_from place value.now (state_of work.now)) }
    ensures fits { IfOk result (λ t. Fits (view t)) }
{
    match work.store.tree_of(value) {
        Ok(tree) => Ok(tree),
        Err(why) => Err(tree_stop(work.alloc, place, why)),
    }
}

/// The trees of values, each under its name. The first value without one ends it, as [`tree_at`] says.
pub fn trees_at(
    work: &Work,
    place: Place,
    pairs: &[(Text, Value)],
) -> Result<Vec<(Text, Tree)>, Stop>
    requires { PairsNamed work.now.store pairs.now }
    ensures { Gives (λ ts. map plain_pair ts.items) result (state_of work.now) (trees_from place pairs.now [] (state_of work.now)) }
{
    let mut trees = Vec::with_capacity(work.alloc, pairs.len())?;
    for (name, value) in pairs {
        let tree = tree_at(work, place, value)?;
        trees.push((name.clone()?, tree))?;
    }
    Ok(trees)
}

/// Why a value has no tree, at a place.
fn tree_stop(alloc: Global, place: Place, why: TreeFault) -> Stop
    ensures { IsTreeStop result place why }
{
    match why {
        TreeFault::Cyclic { .. } => fault(alloc, place, DiagKind::Cyclic),
        TreeFault::HasFunction => fault(alloc, place, DiagKind::FunctionValue),
        TreeFault::TooLarge => fault(alloc, place, DiagKind::SpaceLimit),
        TreeFault::OutOfMemory => Stop::Memory,
    }
}
