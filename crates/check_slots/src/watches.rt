// When all checkables of a site are to be checked next.
ghost use Rattle.std.specs.Prelude.{◌≡◌, ◌<◌, ◌-◌, ◌^◌, ℕ, [], ◌∷◌, length, filter, replicate, slice_get, slice_set, false, Some, IfOk, IfSome, IfNone};
ghost use Rattle.run_meaning.specs.Schedule as meant;
ghost use Rattle.run_meaning.specs.Schedule.{due_from};
ghost use Rattle.check_slots.specs.Watches.{IsFirstDue, first_watch, member_of, watch_as};

use crate::watch::Watch;
use site_base::{Moment, OutOfMemory};
use std::alloc::Global;
use std::marker::{Brand, Model};
use std::sync::ledger::{Blank, Ledger};
use wheel_links::{Steps, Wheel};

/// The slots of a wheel, over which its members are spread.
const SLOTS: u32 = 4096;

/// When each checkable of a site is to be checked next. Clauses see it as a list, by index.
#[derive(Drop)]
pub struct Watches {
    /// Those of which no order is outstanding, by their next moments.
    wheel: Wheel,
    each: Vec<Watch>,
}

impl Model for Watches {
    ghost use Rattle.std.specs.Prelude.{◌≡◌, List, map};
    ghost use Rattle.run_meaning.specs.Schedule.{Watch};
    ghost use Rattle.check_slots.specs.Watches.{member_of, watch_as};

    ghost Value = { List Watch };

    ghost view = { λ w. map watch_as w.each.items };

    ghost invariant = { λ w. w.wheel ≡ map member_of w.each.items };
}

impl Watches {
    /// Those of so many checkables before the first check.
    pub fn new(alloc: Global, count: u32) -> Result<Watches, OutOfMemory>
        requires { count < 2 ^ 32 - 1 }
        ensures { IfOk result (λ w. w ≡ replicate count first_watch) }
    {
        Watches::new_on::<Brand>(alloc, count, Blank::new(1))
    }

    /// As `new`, with a counter for the steps through the wheel.
    fn new_on<L: Ledger>(alloc: Global, count: u32, blank: Blank) -> Result<Watches, OutOfMemory>
        requires name { blank.name ≡ L.name }
        requires parts { blank.parts ≡ L.parts }
        requires any { 0 < blank.parts }
        requires count { count < 2 ^ 32 - 1 }
        ensures { IfOk result (λ w. w ≡ replicate count first_watch) }
    {
        let first = Watch::first();
        let mut steps = Steps::<L>::new(blank);
        let mut wheel = Wheel::new(alloc, count, SLOTS)?;
        for checkable in 0..count {
            let _ = wheel.place(checkable, first.next, &mut steps);
        }
        Ok(Watches {
            wheel,
            each: vec![in alloc; first; count as usize]?,
        })
    }

    /// That of the checkable of this index.
    pub fn at(&self, checkable: u32) -> Watch
        requires { checkable < length self.now }
        ensures { slice_get self.now checkable ≡ Some (watch_as result) }
    {
        self.each[checkable as usize]
    }

    /// Gives the checkable of this index another.
    pub fn set(&mut self, checkable: u32, watch: Watch)
        requires { checkable < length self.old }
        ensures { self.new ≡ slice_set self.old checkable (watch_as watch) }
    {
        self.set_on::<Brand>(checkable, watch, Blank::new(1));
    }

    /// As `set`, with a counter for the steps through the wheel.
    fn set_on<L: Ledger>(&mut self, checkable: u32, watch: Watch, blank: Blank)
        requires name { blank.name ≡ L.name }
        requires parts { blank.parts ≡ L.parts }
        requires any { 0 < blank.parts }
        requires checkable { checkable < length self.old }
        ensures { self.new ≡ slice_set self.old checkable (watch_as watch) }
    {
        let mut steps = Steps::<L>::new(blank);
        put(&mut self.wheel, checkable, &watch, &mut steps);
        self.each[checkable as usize] = watch;
    }

    /// The one that is due first at a moment: of those of which no order is outstanding the one whose next moment is the earliest,
    /// and then the one with the least index. `None` comes exactly where none is due.
    pub fn due(&self, moment: Moment) -> Option<u32>
        ensures none { IfNone result (due_from moment 0 self.now ≡ []) }
        ensures first { IfSome result (IsFirstDue moment self.now) }
    {
        self.wheel.due(moment)
    }

    /// Of how many an order is outstanding.
    pub fn waiting(&self) -> usize
        ensures { result ≡ length (filter (λ (w : meant.Watch). w.waiting) self.now) }
    {
        self.each.len() - self.wheel.len() as usize
    }
}

/// Has the checkable of this index on the wheel as its watch says: with its next moment, or not at all.
fn put<L: Ledger>(wheel: &mut Wheel, checkable: u32, watch: &Watch, steps: &mut Steps<L>)
    requires { checkable < length wheel.old }
    ensures { wheel.new ≡ slice_set wheel.old checkable (member_of watch.now) }
{
    let _ = wheel.remove(checkable, steps);
    if watch.waiting {
        return;
    }
    let _ = wheel.place(checkable, watch.next, steps);
}
