// Many turns in which callers wait for one another, and turns that last long.
use crate::threads::check;
use post_turn::{Gate, GatePoint, OpenGate};
use std::test::Fail;
use std::thread;
use std::time::{Clock, Duration, Instant};

/// Holds each turn for a millisecond.
#[derive(Drop)]
struct Slow<'a, R> {
    rt: &'a R,
}

impl<R: Clock + Sync> Gate for Slow<'_, R> {
    fn enter(&self, _caller: u32, point: GatePoint) {
        if let GatePoint::Inside(_) = point {
            thread::sleep(self.rt, Duration::from_millis(1));
        }
    }
}

#[test]
fn four_callers_take_a_hundred_thousand_turns(rt: HostRuntime) -> Result<(), Fail> {
    let start = Instant::now(&rt)?;
    check(&rt, rt.alloc(), 4, 25_000, &OpenGate)?;
    assert!(rt; start.elapsed(&rt)?.as_secs() < 5);
    Ok(())
}

#[test]
fn sixty_four_callers_take_a_hundred_thousand_turns(rt: HostRuntime) -> Result<(), Fail> {
    check(&rt, rt.alloc(), 64, 1_563, &OpenGate)
}

#[test]
fn sixty_four_callers_sleep_while_each_turn_lasts(rt: HostRuntime) -> Result<(), Fail> {
    let start = Instant::now(&rt)?;
    check(&rt, rt.alloc(), 64, 10, &Slow { rt: &rt })?;
    assert!(rt; start.elapsed(&rt)?.as_secs() < 10);
    Ok(())
}
