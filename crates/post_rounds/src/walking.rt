// A caller's way through its jobs.
ghost use Rattle.std.specs.Prelude.{◌≡◌, ◌<◌, All, length, map, IfOk, OnOk};
ghost use Rattle.post_rounds.specs.Rounds.{HasDone, sense};
ghost use Rattle.post_rounds.specs.Hands.{AreHeld, AreFresh, IsJob, Did, seen_by, base_of};

use crate::looking::look_at;
use crate::{Caller, Job, Maker};
use post_turn::{Gate, Machine, Pass, Post};
use site_base::OutOfMemory;
use std::alloc::Global;
use std::sync::Wait;

/// Does all jobs of a caller, one after another, and gives its passes back. It waits where other callers are at the posts.
///
/// # Errors
///
/// `OutOfMemory` if there is none for what is seen, an event or an entry. The passes are gone then.
pub fn walk<M: Machine, K: Maker<M>, R: Wait, G: Gate>(
    rt: &R,
    posts: &[Post<M>],
    maker: &K,
    gate: &G,
    caller: Caller<M, K::Want>,
) -> Result<Vec<Pass<M>>, OutOfMemory>
    requires hand { AreFresh posts.now caller.number caller.hand.items }
    requires jobs { All (IsJob (K.apt maker.now) (map base_of posts.now)) caller.jobs.items }
    ensures held { IfOk result (λ hand. AreHeld M.caller_of posts.now caller.number hand.items) }
    ensures done { IfOk result (λ hand. HasDone (sense M.entry_of M.caller_of M.after M.glance_of (K.event_of maker.now) (map base_of posts.now)) (seen_by hand.items) caller.number caller.jobs.items) }
{
    let Caller {
        alloc,
        number,
        mut hand,
        jobs,
    } = caller;
    for job in jobs {
        take(rt, alloc, posts, maker, gate, number, &mut hand, job)?;
    }
    Ok(hand)
}

/// Does one job.
fn take<M: Machine, K: Maker<M>, R: Wait, G: Gate>(
    rt: &R,
    alloc: Global,
    posts: &[Post<M>],
    maker: &K,
    gate: &G,
    caller: u32,
    hand: &mut Vec<Pass<M>>,
    job: Job<K::Want>,
) -> Result<(), OutOfMemory>
    requires hand { AreHeld M.caller_of posts.now caller hand.old.items }
    requires job { IsJob (K.apt maker.now) (map base_of posts.now) job }
    ensures hand { OnOk result (AreHeld M.caller_of posts.now caller hand.new.items) }
    ensures did { OnOk result (Did (sense M.entry_of M.caller_of M.after M.glance_of (K.event_of maker.now) (map base_of posts.now)) (seen_by hand.old.items) (seen_by hand.new.items) caller job) }
{
    let Job { post, looks, want } = job;
    let sights = look_at(rt, alloc, posts, maker, caller, hand, looks.as_slice())?;
    let event = maker.event(alloc, want, sights)?;
    let at = post as usize;
    match posts[at].act(rt, &mut hand[at], event, gate) {
        Ok(_) => Ok(()),
        Err(_) => Err(OutOfMemory),
    }
}
