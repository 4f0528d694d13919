// Several threads at one post.
ghost use Rattle.std.specs.Prelude.{◌≡◌, ◌<◌};
ghost use Rattle.post_turn.specs.Passes.{IsPassOf};

use crate::counting::{Call, Counting, in_order};
use post_turn::{Gate, OpenGate, Pass, Post};
use site_base::{OutOfMemory, Row};
use std::alloc::Global;
use std::process::Abort;
use std::sync::Wait;
use std::test::Fail;
use std::thread;
use std::thread::Threads;

/// Acts so often, with the serial numbers from 0 on, and gives the pass back.
fn acts<R: Wait, G: Gate>(
    rt: &R,
    post: &Post<Counting>,
    mut pass: Pass<Counting>,
    times: u32,
    gate: &G,
) -> Pass<Counting>
    requires { IsPassOf post.now pass }
    ensures { IsPassOf post.now result }
{
    for serial in 0..times {
        if post.act(rt, &mut pass, serial, gate).is_err() {
            break;
        }
    }
    pass
}

/// The end of a post at which each caller acts so often, in a thread of its own.
fn raced<R: Wait + Threads + Sync, G: Gate + Sync>(
    rt: &R,
    alloc: Global,
    callers: u32,
    times: u32,
    gate: &G,
) -> Result<(u64, Row<Call>), OutOfMemory>
    requires { 0 < callers }
{
    let machine = Counting { refused: None };
    let (post, passes) = Post::new(alloc, machine, 0, callers, 1)?;
    let shared = &post;
    let turns = move |pass: Pass<Counting>| -> Pass<Counting>
        requires { IsPassOf shared.now pass }
        ensures { IsPassOf shared.entry.now result }
    { acts(rt, shared, pass, times, gate) };
    let passes = thread::map_vec(rt, passes.into_vec(), &turns)?;
    post.close(Row::from(passes)).map_err(|_| OutOfMemory)
}

/// Each caller's calls stand once and in order in the history that all make together.
pub fn check<R: Wait + Threads + Abort + Sync, G: Gate + Sync>(
    rt: &R,
    alloc: Global,
    callers: u32,
    times: u32,
    gate: &G,
) -> Result<(), Fail>
    requires { 0 < callers }
{
    let (state, history) = raced(rt, alloc, callers, times, gate)?;
    assert!(rt; state == u64::from(callers) * u64::from(times));
    assert!(rt; history.len() as u64 == state);
    for caller in 0..callers {
        assert!(rt; in_order(history.as_slice(), caller) == Some(times));
    }
    Ok(())
}

#[test]
fn two_threads(rt: HostRuntime) -> Result<(), Fail> {
    check(&rt, rt.alloc(), 2, 10_000, &OpenGate)
}

#[test]
fn four_threads(rt: HostRuntime) -> Result<(), Fail> {
    check(&rt, rt.alloc(), 4, 10_000, &OpenGate)
}
