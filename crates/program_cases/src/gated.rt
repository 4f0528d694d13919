// Workers that are held up at a gate until others have come somewhere.
use crate::words::{cut, number_or};
use post_turn::{Gate, GatePoint};
use site_base::OutOfMemory;
use std::alloc::Global;
use std::sync::atomic::{AtomicU64, Ordering};
use std::thread;

/// How often a worker that is held up lets others run before it goes on all the same.
const LIMIT: u64 = 200_000_000;

/// A worker at an event on the checkable of this index.
#[derive(Drop)]
struct At {
    worker: u64,
    /// Whether it is within the event, and not after it.
    inside: bool,
    checkable: u64,
}

impl At {
    /// Reads `0 inside 2` or `0 outside 2`.
    fn read(text: &str) -> At {
        let (worker, rest) = cut(text, ' ');
        let (place, checkable) = cut(rest, ' ');
        At {
            worker: number_or(worker, u64::MAX),
            inside: place == "inside",
            checkable: number_or(checkable, u64::MAX),
        }
    }

    /// Whether a caller is there.
    fn is(&self, caller: u32, point: GatePoint) -> bool {
        let (inside, checkable) = match point {
            GatePoint::Inside(checkable) => (true, checkable),
            GatePoint::Outside(checkable) => (false, checkable),
            _ => return false,
        };
        self.worker == u64::from(caller)
            && self.inside == inside
            && self.checkable == u64::from(checkable)
    }
}

/// A worker is held up at a place until another has come to one.
#[derive(Drop)]
pub(crate) struct Hold {
    at: At,
    until: At,
    /// 1 once the other has come.
    come: AtomicU64,
    /// 1 if it didn't come within the limit.
    late: AtomicU64,
}

impl Hold {
    /// Reads `0 inside 2 until 1 outside 3`.
    pub(crate) fn read(text: &str) -> Hold {
        let (at, until) = text.split_once(" until ").unwrap_or((text, ""));
        Hold {
            at: At::read(at),
            until: At::read(until),
            come: AtomicU64::new(0),
            late: AtomicU64::new(0),
        }
    }

    /// Lets the worker go on if this caller is the other one.
    fn release(&self, caller: u32, point: GatePoint) {
        if self.until.is(caller, point) {
            self.come.store(1, Ordering::SeqCst);
        }
    }

    /// Holds this caller up if it is the worker.
    fn hold(&self, caller: u32, point: GatePoint) {
        if self.at.is(caller, point) {
            self.wait();
        }
    }

    /// Waits until the other has come, or the limit is reached.
    fn wait(&self) {
        for _ in 0..LIMIT {
            if self.come.load(Ordering::SeqCst) == 1 {
                return;
            }
            thread::yield_now();
        }
        self.late.store(1, Ordering::SeqCst);
    }

    fn is_late(&self) -> bool {
        self.late.load(Ordering::SeqCst) == 1
    }
}

/// The workers that are held up.
#[derive(Drop)]
pub(crate) struct Held {
    holds: Vec<Hold>,
}

impl Held {
    pub(crate) fn new(alloc: Global) -> Held {
        Held {
            holds: Vec::new(alloc),
        }
    }

    pub(crate) fn push(&mut self, hold: Hold) -> Result<(), OutOfMemory> {
        self.holds.push(hold)?;
        Ok(())
    }

    /// Whether some worker was held up until the limit was reached.
    pub(crate) fn is_late(&self) -> bool {
        for hold in &self.holds {
            if hold.is_late() {
                return true;
            }
        }
        false
    }
}

impl Gate for Held {
    fn enter(&self, caller: u32, point: GatePoint) {
        release_all(&self.holds, caller, point);
        hold_all(&self.holds, caller, point);
    }
}

fn release_all(holds: &[Hold], caller: u32, point: GatePoint) {
    for hold in holds {
        hold.release(caller, point);
    }
}

fn hold_all(holds: &[Hold], caller: u32, point: GatePoint) {
    for hold in holds {
        hold.hold(caller, point);
    }
}
