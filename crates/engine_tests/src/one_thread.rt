// One post and two passes in one thread.
ghost use Rattle.std.specs.Prelude.{◌≡◌};
ghost use Rattle.post_turn.specs.Passes.{IsPassOf};

use crate::calls::{act, closed_of_two};
use crate::counting::{Counting, in_order};
use post_turn::{OpenGate, Pass, Post};
use std::process::Abort;
use std::sync::Wait;
use std::test::Fail;

/// The second caller looks for the first time once the first has made two calls.
fn look_after_two<R: Wait + Abort>(
    rt: &R,
    post: &Post<Counting>,
    first: &mut Pass<Counting>,
    second: &mut Pass<Counting>,
)
    requires first { IsPassOf post.now first.old }
    requires second { IsPassOf post.now second.old }
    ensures first { IsPassOf post.now first.new }
    ensures second { IsPassOf post.now second.new }
{
    assert!(rt; act(rt, post, first, 0, &OpenGate) == Some((1, 41)));
    assert!(rt; act(rt, post, first, 1, &OpenGate) == Some((2, 42)));
    assert!(rt; post.look(rt, second) == (2, 42));
}

#[test]
fn a_first_look_sees_two_calls_of_another(rt: HostRuntime) -> Result<(), Fail> {
    let (post, passes) = Post::new(rt.alloc(), Counting { refused: None }, 40, 2, 7)?;
    let mut passes = passes.into_vec();
    let (Some(mut second), Some(mut first)) = (passes.pop(), passes.pop()) else {
        return Err(Fail::from("two passes"));
    };
    look_after_two(&rt, &post, &mut first, &mut second);
    let (state, history) = closed_of_two(rt.alloc(), post, first, second)?;
    assert!(rt; state == 42);
    assert!(rt; history.len() == 2);
    assert!(rt; in_order(history.as_slice(), 0) == Some(2));
    Ok(())
}
