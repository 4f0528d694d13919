// Calls at a post, and how it ends.
ghost use Rattle.std.specs.Prelude.{◌≡◌};
ghost use Rattle.post_turn.specs.Passes.{IsPassOf, callers_of};

use crate::counting::{Call, Counting};
use post_turn::{Gate, Pass, Post};
use site_base::{OutOfMemory, Row};
use std::alloc::Global;
use std::sync::Wait;

/// The number of a call's entry, and the count after it; none if the call is refused.
pub fn act<R: Wait, G: Gate>(
    rt: &R,
    post: &Post<Counting>,
    pass: &mut Pass<Counting>,
    event: u32,
    gate: &G,
) -> Option<(u64, u64)>
    requires { IsPassOf post.now pass.old }
    ensures { IsPassOf post.now pass.new }
{
    match post.act(rt, pass, event, gate) {
        Ok(receipt) => Some((receipt.number, receipt.glance)),
        Err(_) => None,
    }
}

/// The event that comes back of a call; none if it is taken.
pub fn refused<R: Wait, G: Gate>(
    rt: &R,
    post: &Post<Counting>,
    pass: &mut Pass<Counting>,
    event: u32,
    gate: &G,
) -> Option<u32>
    requires { IsPassOf post.now pass.old }
    ensures { IsPassOf post.now pass.new }
{
    match post.act(rt, pass, event, gate) {
        Ok(_) => None,
        Err(refused) => Some(refused.event),
    }
}

/// The count and the history of a post with one caller.
pub fn closed_of_one(
    alloc: Global,
    post: Post<Counting>,
    pass: Pass<Counting>,
) -> Result<(u64, Row<Call>), OutOfMemory>
    requires callers { callers_of post ≡ 1 }
    requires pass { IsPassOf post pass }
{
    let passes = vec![in alloc; pass]?;
    post.close(Row::from(passes)).map_err(|_| OutOfMemory)
}

/// The count and the history of a post with two callers.
pub fn closed_of_two(
    alloc: Global,
    post: Post<Counting>,
    first: Pass<Counting>,
    second: Pass<Counting>,
) -> Result<(u64, Row<Call>), OutOfMemory>
    requires callers { callers_of post ≡ 2 }
    requires first { IsPassOf post first }
    requires second { IsPassOf post second }
{
    let passes = vec![in alloc; first, second]?;
    post.close(Row::from(passes)).map_err(|_| OutOfMemory)
}
