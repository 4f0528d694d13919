// Two threads, of which one stands in a gate.
ghost use Rattle.std.specs.Prelude.{◌≡◌, ◌<◌};
ghost use Rattle.post_turn.specs.Passes.{IsPassOf};

use crate::counting::Counting;
use post_turn::{Gate, GatePoint, Pass, Post};
use std::alloc::Global;
use std::sync::Wait;
use std::sync::atomic::{AtomicU64, Ordering};
use std::test::Fail;
use std::thread;
use std::thread::Threads;

/// How often a gate lets other threads run before it gives up.
const LIMIT: u32 = 10_000_000;

/// Holds caller 0 at Inside for a while, and at Outside until caller 1 was at Inside.
#[derive(Drop)]
struct Held {
    /// 1 once caller 0 was at Inside.
    begun: AtomicU64,
    /// 1 once caller 1 was at Inside.
    next: AtomicU64,
    /// 1 if caller 1 came to Inside while caller 0 was there.
    both: AtomicU64,
    /// 1 if caller 1 never came.
    late: AtomicU64,
}

impl Held {
    fn new() -> Held {
        Held {
            begun: AtomicU64::new(0),
            next: AtomicU64::new(0),
            both: AtomicU64::new(0),
            late: AtomicU64::new(0),
        }
    }
}

/// Whether the word became 1 within the limit.
fn comes(word: &AtomicU64) -> bool {
    for _ in 0..LIMIT {
        if word.load(Ordering::SeqCst) == 1 {
            return true;
        }
        thread::yield_now();
    }
    false
}

impl Gate for Held {
    fn enter(&self, caller: u32, point: GatePoint) {
        match (caller, point) {
            (0, GatePoint::Inside(_)) => {
                self.begun.store(1, Ordering::SeqCst);
                for _ in 0..1000 {
                    thread::yield_now();
                }
                self.both
                    .store(self.next.load(Ordering::SeqCst), Ordering::SeqCst);
            }
            (0, GatePoint::Outside(_)) => {
                if !comes(&self.next) {
                    self.late.store(1, Ordering::SeqCst);
                }
            }
            (_, GatePoint::Inside(_)) => self.next.store(1, Ordering::SeqCst),
            _ => {}
        }
    }
}

/// One call, once the word is 1.
fn act_after<R: Wait>(
    rt: &R,
    post: &Post<Counting>,
    mut pass: Pass<Counting>,
    gate: &Held,
    word: &AtomicU64,
) -> bool
    requires { IsPassOf post.now pass }
{
    comes(word) && post.act(rt, &mut pass, 0, gate).is_ok()
}

/// Whether both callers act: the second once the first is within its turn.
fn both_act<R: Wait + Threads + Sync>(
    rt: &R,
    post: &Post<Counting>,
    first: Pass<Counting>,
    second: Pass<Counting>,
    gate: &Held,
) -> bool
    requires first { IsPassOf post.now first }
    requires second { IsPassOf post.now second }
{
    let always = AtomicU64::new(1);
    let go = &always;
    let (one, other) = thread::join(
        rt,
        move ||
            requires { IsPassOf post.now first }
        { act_after(rt, post, first, gate, go) },
        move ||
            requires { IsPassOf post.now second }
        { act_after(rt, post, second, gate, &gate.begun) },
    );
    one && other
}

/// Whether both callers acted, with what the gate saw.
fn two<R: Wait + Threads + Sync>(rt: &R, alloc: Global) -> Result<(bool, u64, u64), Fail> {
    let (post, passes) = Post::new(alloc, Counting { refused: None }, 0, 2, 3)?;
    let mut passes = passes.into_vec();
    let (Some(second), Some(first)) = (passes.pop(), passes.pop()) else {
        return Err(Fail::from("two passes"));
    };
    let gate = Held::new();
    let acted = both_act(rt, &post, first, second, &gate);
    Ok((
        acted,
        gate.both.load(Ordering::SeqCst),
        gate.late.load(Ordering::SeqCst),
    ))
}

#[test]
fn inside_is_within_the_turn_and_outside_behind_it(rt: HostRuntime) -> Result<(), Fail> {
    assert!(rt; two(&rt, rt.alloc())? == (true, 0, 0));
    Ok(())
}
