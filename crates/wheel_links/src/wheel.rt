// The wheel, and what its calls refuse with.
ghost use Rattle.std.specs.Prelude.{◌≡◌, ℕ, ◌+◌, ◌-◌, ◌^◌, ◌<◌, ◌≤◌, None, Some, IfOk, IfSome, IfNone, OnOk, OnErr, length};
ghost use Rattle.std.specs.Result.{result_ok};
ghost use Rattle.wheel_links.specs.Due.{IsNextDue, IsNoneDue};
ghost use Rattle.wheel_links.specs.Members.{IsMember, capacity_of, empty, insert, member_count, moment_of, remove};

use crate::tree::MomentTree;
use crate::{Links, Steps};
use site_base::{Moment, OutOfMemory};
use std::alloc::Global;
use std::marker::{Brand, Model};
use std::sync::ledger::{Blank, Ledger};
use thiserror::Error;

/// The id is a member of the wheel already.
#[derive(Clone, Copy, Debug, PartialEq, Eq, Error)]
#[error("the id is on the wheel already")]
pub struct Present;

/// The id is no member of the wheel.
#[derive(Clone, Copy, Debug, PartialEq, Eq, Error)]
#[error("the id is not on the wheel")]
pub struct Absent;

/// A timing wheel: a map from ids to the moments at which they are due. Clauses see it as that map,
/// a place for each id below the capacity.
///
/// A member stands in the slot that is its moment modulo the number of slots. A slot's members are
/// a ring of cells: the cells below the number of slots are the rings' heads, and an id's cell
/// stands that much further on. Which member is due first is found in a tree over the ids.
#[derive(Drop)]
pub struct Wheel {
    links: Links,
    moments: MomentTree,
    slots: u64,
    /// How many members there are.
    count: u32,
}

impl Model for Wheel {
    ghost use Rattle.wheel_links.specs.Members.{Members};
    ghost use Rattle.wheel_links.specs.Inside.{IsWheel};

    ghost Value = { Members };

    ghost view = { λ w. w.moments };

    ghost invariant = { λ w. IsWheel w.slots w.moments w.links w.count };
}

impl Wheel {
    /// A wheel with no members, for the ids below a capacity. It takes all the memory that the
    /// wheel ever takes.
    pub fn new(alloc: Global, capacity: u32, slots: u32) -> Result<Wheel, OutOfMemory>
        requires slots { 1 ≤ slots }
        requires capacity { capacity < 2 ^ 32 - 1 }
        ensures { IfOk result (λ w. w ≡ empty capacity) }
    {
        let links = Links::alone(alloc, u64::from(slots) + u64::from(capacity))?;
        let moments = MomentTree::new(alloc, capacity)?;
        Ok(Wheel {
            links,
            moments,
            slots: u64::from(slots),
            count: 0,
        })
    }

    /// How many members there are.
    pub fn len(&self) -> u32
        ensures { result ≡ member_count self.now }
    {
        self.count
    }

    /// Makes an id a member with this moment. `Present` comes exactly if it is a member
    /// already. It takes at most sixteen steps, and no memory.
    pub fn place<L: Ledger>(
        &mut self,
        id: u32,
        moment: Moment,
        steps: &mut Steps<L>,
    ) -> Result<(), Present>
        requires { id < capacity_of self.old }
        ensures present { OnErr result (IsMember self.old id) }
        ensures same { OnErr result (self.new ≡ self.old) }
        ensures absent { OnOk result (moment_of self.old id ≡ None) }
        ensures placed { OnOk result (self.new ≡ insert self.old id moment) }
        ensures cost { steps.new ≤ steps.old + 16 }
    {
        if self.moments.of(id).is_some() {
            return Err(Present);
        }
        self.put_in(id, moment, steps);
        Ok(())
    }

    /// Takes a member off the wheel, and gives its moment. `Absent` comes exactly if the id is
    /// no member. It takes at most sixteen steps, and no memory.
    pub fn remove<L: Ledger>(&mut self, id: u32, steps: &mut Steps<L>) -> Result<Moment, Absent>
        requires { id < capacity_of self.old }
        ensures moment { result_ok result ≡ moment_of self.old id }
        ensures same { OnErr result (self.new ≡ self.old) }
        ensures removed { OnOk result (self.new ≡ remove self.old id) }
        ensures cost { steps.new ≤ steps.old + 16 }
    {
        let Some(moment) = self.moments.of(id) else {
            return Err(Absent);
        };
        self.take_out(id, steps);
        Ok(moment)
    }

    /// Gives a member another moment, and gives its old one. `Absent` comes exactly if the id is
    /// no member. It takes at most sixteen steps, and no memory.
    pub fn move_to<L: Ledger>(
        &mut self,
        id: u32,
        moment: Moment,
        steps: &mut Steps<L>,
    ) -> Result<Moment, Absent>
        requires { id < capacity_of self.old }
        ensures moment { result_ok result ≡ moment_of self.old id }
        ensures same { OnErr result (self.new ≡ self.old) }
        ensures moved { OnOk result (self.new ≡ insert self.old id moment) }
        ensures cost { steps.new ≤ steps.old + 16 }
    {
        let Some(old) = self.moments.of(id) else {
            return Err(Absent);
        };
        self.take_out(id, steps);
        self.put_in(id, moment, steps);
        Ok(old)
    }

    /// The id of the member that is due first: the least by moment, then by id, among those whose
    /// moment is at or before this one. `None` comes exactly if there is none. It looks at as
    /// many nodes as `due_counting`.
    pub fn due(&self, moment: Moment) -> Option<u32>
        ensures none { IfNone result (IsNoneDue self.now moment) }
        ensures first { IfSome result (λ id. IsNextDue self.now moment id) }
    {
        self.due_on::<Brand>(moment, Blank::new(1))
    }

    /// As `due`, with each look at a node of the tree counted as a step. It takes at most 33 steps,
    /// one for the root and one for each level below it, in whatever order the members were placed.
    pub fn due_counting<L: Ledger>(&self, moment: Moment, steps: &mut Steps<L>) -> Option<u32>
        ensures none { IfNone result (IsNoneDue self.now moment) }
        ensures first { IfSome result (λ id. IsNextDue self.now moment id) }
        ensures cost { steps.new ≤ steps.old + 33 }
    {
        self.moments.first(moment, steps)
    }

    /// As `due`, with a counter of its own.
    fn due_on<L: Ledger>(&self, moment: Moment, blank: Blank) -> Option<u32>
        requires name { blank.name ≡ L.name }
        requires parts { blank.parts ≡ L.parts }
        requires any { 0 < blank.parts }
        ensures none { IfNone result (IsNoneDue self.now moment) }
        ensures first { IfSome result (λ id. IsNextDue self.now moment id) }
    {
        let mut steps = Steps::<L>::new(blank);
        self.due_counting(moment, &mut steps)
    }

    /// Makes an id that is no member one, at the end of its slot's ring.
    fn put_in<L: Ledger>(&mut self, id: u32, moment: Moment, steps: &mut Steps<L>)
        requires id { id < capacity_of self.old }
        requires absent { moment_of self.old id ≡ None }
        ensures placed { self.new ≡ insert self.old id moment }
        ensures cost { steps.new ≤ steps.old + 6 }
    {
        let slot = moment.secs() % self.slots;
        self.links.append(slot, self.slots + u64::from(id), steps);
        self.moments.set(id, Some(moment));
        self.count += 1;
    }

    /// Takes a member off the wheel.
    fn take_out<L: Ledger>(&mut self, id: u32, steps: &mut Steps<L>)
        requires id { id < capacity_of self.old }
        requires member { IsMember self.old id }
        ensures removed { self.new ≡ remove self.old id }
        ensures cost { steps.new ≤ steps.old + 5 }
    {
        self.links.unlink(self.slots + u64::from(id), steps);
        self.moments.set(id, None);
        self.count -= 1;
    }
}
