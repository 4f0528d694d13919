// How posts are closed.
ghost use Rattle.std.specs.Prelude.{◌≡◌, ◌<◌, ℕ, All, length, map, slice_get, Some, Vec, IfOk};
ghost use Rattle.std.specs.declared.alloc.Global.{Global};
ghost use Rattle.post_turn.specs.Passes.{callers_of, IsPassOf};
ghost use Rattle.post_turn.specs.declared.pass.Pass.{Pass};
ghost use Rattle.post_rounds.specs.Rounds.{histories_of};
ghost use Rattle.post_rounds.specs.Hands.{AreHands, AreHeld, AreLast, seen_by};
ghost use Rattle.post_rounds.specs.Ends.{AreEnds, GrewByOthers, IsEndOf};

use crate::Ended;
use post_turn::{Machine, Pass, Post};
use site_base::{OutOfMemory, Row};
use std::alloc::Global;

/// Closes all posts, each with the passes of all callers, whose hands may come in any order.
///
/// # Errors
///
/// `OutOfMemory` if there is none for the answer. The posts are gone then.
pub fn close_all<M: Machine>(
    alloc: Global,
    mut posts: Vec<Post<M>>,
    mut hands: Vec<Vec<Pass<M>>>,
) -> Result<Vec<Ended<M::State, M::Entry>>, OutOfMemory>
    requires callers { All (λ post. callers_of post ≡ length hands.items) posts.items }
    requires hands { AreHands M.caller_of posts.items hands.items }
    ensures ends { IfOk result (λ ended. AreEnds M.fit M.after M.caller_of (length hands.items) posts.items ended.items) }
    ensures grown { IfOk result (λ ended. (j k : ℕ) (hand : Vec (Pass M M.State M.Event M.Entry M.Glance) Global) → slice_get hands.items j ≡ Some hand → AreHeld M.caller_of posts.items k hand.items → GrewByOthers M.caller_of k (seen_by hand.items) (histories_of ended.items)) }
{
    let mut ended = Vec::with_capacity(alloc, posts.len())?;
    while let Some(post) = posts.pop() {
        let passes = last_of_each(alloc, &mut hands)?;
        ended.push(close(post, passes)?)?;
    }
    ended.reverse();
    Ok(ended)
}

/// The last pass of each caller.
fn last_of_each<M: Machine>(
    alloc: Global,
    hands: &mut Vec<Vec<Pass<M>>>,
) -> Result<Vec<Pass<M>>, OutOfMemory>
    requires { All (λ hand. 0 < length hand.items) hands.old.items }
    ensures { IfOk result (λ passes. AreLast hands.old.items passes.items hands.new.items) }
{
    let mut passes = Vec::with_capacity(alloc, hands.len())?;
    for caller in 0..hands.len() {
        let Some(pass) = hands[caller].pop() else {
            unreachable!()
        };
        passes.push(pass)?;
    }
    Ok(passes)
}

/// Closes one post.
fn close<M: Machine>(
    post: Post<M>,
    passes: Vec<Pass<M>>,
) -> Result<Ended<M::State, M::Entry>, OutOfMemory>
    requires { (length passes.items ≡ callers_of post) × All (IsPassOf post) passes.items }
    ensures { IfOk result (IsEndOf M.fit M.after M.caller_of post passes.items) }
{
    match post.close(Row::from(passes)) {
        Ok((state, history)) => Ok(Ended { state, history }),
        Err(_) => Err(OutOfMemory),
    }
}
