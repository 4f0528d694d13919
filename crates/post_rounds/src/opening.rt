// How posts and callers are made.
ghost use Rattle.std.specs.Prelude.{◌≡◌, ◌<◌, ◌^◌, [], All, length, map, IfOk, OnOk};
ghost use Rattle.post_turn.specs.Passes.{callers_of};
ghost use Rattle.post_rounds.specs.Hands.{AreCallers, Dealt, base_of};

use crate::{Base, Caller, Job};
use post_turn::{Machine, Pass, Post};
use site_base::{OutOfMemory, Row};
use std::alloc::Global;

/// Posts, and the callers with their passes.
#[derive(Drop)]
pub struct Opened<M: Machine, W> {
    pub posts: Vec<Post<M>>,
    pub callers: Vec<Caller<M, W>>,
}

/// A post of each base and a caller for each list of jobs, in their order. Callers count from 0, and each has its pass of each post.
///
/// # Errors
///
/// `OutOfMemory` if there is none for a post, or for what a caller has.
pub fn open_all<M: Machine, W: Drop>(
    alloc: Global,
    bases: Vec<Base<M, M::State>>,
    lists: Vec<Vec<Job<W>>>,
) -> Result<Opened<M, W>, OutOfMemory>
    requires callers { (0 < length lists.items) × (length lists.items < 2 ^ 32) }
    requires starts { All (λ base. M.fit base.machine base.start) bases.items }
    ensures posts { IfOk result (λ r. (map base_of r.posts.items ≡ bases.items) × All (λ post. callers_of post ≡ length lists.items) r.posts.items) }
    ensures callers { IfOk result (λ r. AreCallers r.posts.items lists.items r.callers.items) }
{
    let mut callers = callers_with(alloc, lists, bases.len())?;
    let count = callers.len() as u32;
    let mut posts = Vec::with_capacity(alloc, bases.len())?;
    for base in bases {
        let Base {
            machine,
            start,
            number,
        } = base;
        let (post, passes) = Post::new(alloc, machine, start, count, number)?;
        deal(&mut callers, passes)?;
        posts.push(post)?;
    }
    Ok(Opened { posts, callers })
}

/// A caller for each list of jobs, without passes, but with room for so many.
fn callers_with<M: Machine, W: Drop>(
    alloc: Global,
    lists: Vec<Vec<Job<W>>>,
    posts: usize,
) -> Result<Vec<Caller<M, W>>, OutOfMemory>
    requires { length lists.items < 2 ^ 32 }
    ensures { IfOk result (λ r. AreCallers [] lists.items r.items) }
{
    let mut callers = Vec::with_capacity(alloc, lists.len())?;
    for jobs in lists {
        let number = callers.len() as u32;
        let hand = Vec::with_capacity(alloc, posts)?;
        callers.push(Caller {
            alloc,
            number,
            hand,
            jobs,
        })?;
    }
    Ok(callers)
}

/// Gives each caller its pass of one post.
fn deal<M: Machine, W: Drop>(
    callers: &mut Vec<Caller<M, W>>,
    passes: Row<Pass<M>>,
) -> Result<(), OutOfMemory>
    requires { length passes ≡ length callers.old.items }
    ensures { OnOk result (Dealt callers.old.items passes callers.new.items) }
{
    let mut at = 0;
    for pass in passes.into_vec() {
        callers[at].hand.push(pass)?;
        at += 1;
    }
    Ok(())
}
