// How callers wait for their turn.
ghost use Rattle.std.specs.Prelude.{◌<◌};

use crate::Machine;
use crate::turns::TurnLock;
use std::sync::Wait;
use std::thread;
use std::time::Duration;

/// So often a caller lets other threads run before it sleeps.
const YIELDS: u32 = 100;

/// A sleeper looks again after so many milliseconds, whether it was woken or not.
const NAP: u64 = 100;

/// A caller that waits for its turn. At first it lets other threads run, and then it sleeps until it
/// is woken. Each turn that is given on wakes one sleeper, and a sleeper whose turn it isn't wakes the
/// next.
#[derive(Drop)]
pub(crate) struct Waiting {
    yields: u32,
    /// The count of served tickets at which the caller last went to sleep.
    slept: Option<u64>,
}

impl Waiting {
    pub fn new() -> Waiting {
        Waiting {
            yields: 0,
            slept: None,
        }
    }

    /// Waits for a while, where so many tickets were served.
    pub fn pause<R: Wait, M: Machine>(&mut self, rt: &R, lock: &TurnLock<M>, served: u64)
        requires { 1 < lock.now.shared.table_id.words }
    {
        if self.yields < YIELDS {
            self.yields += 1;
            thread::yield_now();
            return;
        }
        if self.slept.is_some_and(|before| before != served) {
            lock.shared.wake_one(1);
        }
        self.slept = Some(served);
        let nap = Duration::from_millis(NAP);
        lock.shared.park_timeout(rt, 1, low_half(served), nap);
    }
}

/// Wakes a sleeper where some caller waits, once the ticket behind `served` is called.
pub(crate) fn wake_next<M: Machine>(lock: &TurnLock<M>, served: u64)
    requires { 1 < lock.now.shared.table_id.words }
{
    if lock.shared.peek(0) != served.wrapping_add(1) {
        lock.shared.wake_one(1);
    }
}

/// The low 32 bits, which are those that a sleep compares.
fn low_half(word: u64) -> u32 {
    (word & 0xffff_ffff) as u32
}
