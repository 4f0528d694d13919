// Whether reads find the same in another world.
ghost use Rattle.std.specs.Prelude.{◌≡◌, List, IfOk, MatchOption, map, option_map};
ghost use Rattle.std.specs.Arc.{arc_value};
ghost use Rattle.std.specs.Bool.{Decides};
ghost use Rattle.site_base.specs.View.{view as tree_view};
ghost use Rattle.site_model.specs.PlainSite.{PlainObject};
ghost use Rattle.eval_meaning.specs.Load.{Loaded};
ghost use Rattle.eval_work.specs.Works.{view_of};
ghost use Rattle.task_reads.specs.Looks.{AreSeenIn, IsSeenIn, plain_look};

use crate::Look;
use crate::equality::are_equal;
use eval_work::WorldView;
use name_work::{find_object, is_absent};
use site_base::{OutOfMemory, Tree};
use std::alloc::Global;

/// Whether each of these reads finds the same in a world: an object of the same tree, or none.
///
/// # Errors
///
/// `OutOfMemory` if there is none for a comparison of trees.
#[tactic(auto, using(crate::proofs::Finding::all_left, crate::proofs::Finding::others_left, crate::proofs::Finding::one_unseen, crate::proofs::Finding::all_seen))]
pub fn find_alike(alloc: Global, world: &WorldView, looks: &[Look]) -> Result<bool, OutOfMemory>
    ensures { IfOk result (λ alike. Decides alike (AreSeenIn (view_of world.now) (map plain_look looks.now))) }
{
    for look in looks {
        if !finds_alike(alloc, world, look)? {
            return Ok(false);
        }
    }
    Ok(true)
}

fn finds_alike(alloc: Global, world: &WorldView, look: &Look) -> Result<bool, OutOfMemory>
    ensures { IfOk result (λ alike. Decides alike (IsSeenIn (view_of world.now) (plain_look look.now))) }
{
    match (find_object(world.objects, &look.read), &look.tree) {
        (Some(tree), Some(found)) => are_equal(alloc, tree, found),
        (None, None) => Ok(is_absent(world, &look.read)),
        _ => Ok(false),
    }
}
