// A machine that refuses an event, and a gate that counts.
ghost use Rattle.std.specs.Prelude.{◌≡◌};
ghost use Rattle.post_turn.specs.Passes.{IsPassOf};

use crate::calls::{act, closed_of_one, refused};
use crate::counting::Counting;
use post_turn::{Gate, GatePoint, Pass, Post};
use std::process::Abort;
use std::sync::Wait;
use std::sync::atomic::{AtomicU64, Ordering};
use std::test::Fail;

/// Writes down the points of post 7, as digits: 1 for Inside, 2 for Outside, 9 for any other.
#[derive(Drop)]
struct Digits {
    points: AtomicU64,
}

impl Gate for Digits {
    fn enter(&self, caller: u32, point: GatePoint) {
        let digit = match (caller, point) {
            (0, GatePoint::Inside(7)) => 1,
            (0, GatePoint::Outside(7)) => 2,
            _ => 9,
        };
        let points = self.points.load(Ordering::SeqCst);
        self.points.store(
            points.wrapping_mul(10).wrapping_add(digit),
            Ordering::SeqCst,
        );
    }
}

/// The event 5 is refused, and 6 is taken after that.
fn refuse_and_take<R: Wait + Abort>(rt: &R, post: &Post<Counting>, pass: &mut Pass<Counting>)
    requires { IsPassOf post.now pass.old }
    ensures { IsPassOf post.now pass.new }
{
    let gate = Digits {
        points: AtomicU64::new(0),
    };
    assert!(rt; refused(rt, post, pass, 5, &gate) == Some(5));
    assert!(rt; post.look(rt, pass) == (0, 0));
    assert!(rt; act(rt, post, pass, 6, &gate) == Some((1, 1)));
    assert!(rt; gate.points.load(Ordering::SeqCst) == 1212);
}

#[test]
fn a_refused_event_comes_back_and_a_later_one_is_taken(rt: HostRuntime) -> Result<(), Fail> {
    let (post, passes) = Post::new(rt.alloc(), Counting { refused: Some(5) }, 0, 1, 7)?;
    let mut passes = passes.into_vec();
    let Some(mut pass) = passes.pop() else {
        return Err(Fail::from("a pass"));
    };
    refuse_and_take(&rt, &post, &mut pass);
    let (state, history) = closed_of_one(rt.alloc(), post, pass)?;
    assert!(rt; (state, history.len()) == (1, 1));
    Ok(())
}
