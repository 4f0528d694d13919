// Downtimes in order of when they end.
ghost use Rattle.std.specs.Prelude.{◌≡◌, ◌==◌, ◌∷◌, ◌++◌, [], not};
ghost use Rattle.std.specs.Prelude.{OnOk, OnErr, length, filter, map, IsPermutation};
ghost use Rattle.std.specs.List.{list_any};
ghost use Rattle.downtime_book.specs.Downtime.{after_result, is_live, until};
ghost use Rattle.downtime_book.specs.Firsts.{first_of, starts};

use crate::downtime::Downtime;
use crate::firsts::Firsts;
use crate::keeping::{drop_past, first_live, meet_problem, remove, sort, tell, waits};
use crate::placed::Placed;
use crate::rank::Rank;
use site_base::{Moment, OutOfMemory};
use std::alloc::Global;
use std::collections::VecDeque;
use std::marker::Model;
use std::mem;

/// Some of a book's downtimes, in order of when they end. Each knows what comes first of those that end no earlier, so that what
/// is in effect is found without a walk. Clauses see it as the list of them.
#[derive(Drop)]
pub struct SortedRun {
    placed: VecDeque<Placed>,
}

impl Model for SortedRun {
    ghost use Rattle.std.specs.Prelude.{List};
    ghost use Rattle.downtime_book.specs.declared.downtime.Downtime.{Downtime};
    ghost use Rattle.downtime_book.specs.Contents.{IsInOrder};
    ghost use Rattle.downtime_book.specs.Firsts.{AreTold, downtimes_of};

    ghost Value = { List Downtime };

    ghost view = { λ r. downtimes_of r.placed.items };

    ghost invariant = { λ r. record {
      ordered : IsInOrder (downtimes_of r.placed.items);
      told : AreTold r.placed.items;
    } };
}

impl SortedRun {
    pub fn new(alloc: Global) -> SortedRun
        ensures { result ≡ [] }
    {
        SortedRun {
            placed: VecDeque::new(alloc),
        }
    }

    pub fn len(&self) -> usize
        ensures { result ≡ length self.now }
    {
        self.placed.len()
    }

    pub fn is_empty(&self) -> bool
        ensures { result ≡ (length self.now == 0) }
    {
        self.placed.is_empty()
    }

    /// Puts a downtime in at its place. Nothing has triggered it yet.
    pub fn put(&mut self, downtime: Downtime) -> Result<(), OutOfMemory>
        requires { until downtime ≡ downtime.«end» }
        ensures ok { OnOk result (IsPermutation (downtime ∷ self.old) self.new) }
        ensures err { OnErr result (self.new ≡ self.old) }
    {
        let until = downtime.until();
        let place = self
            .placed
            .partition_point(|one| one.downtime.until() <= until);
        let one = Placed {
            downtime,
            firsts: Firsts::none(),
        };
        if self.placed.insert(place, one).is_err() {
            return Err(OutOfMemory);
        }
        tell(self.placed.make_contiguous());
        Ok(())
    }

    /// Takes all of them out.
    pub fn take(&mut self) -> SortedRun
        ensures taken { result ≡ self.old }
        ensures left { self.new ≡ [] }
    {
        let alloc = *self.placed.allocator();
        mem::replace(self, SortedRun::new(alloc))
    }

    /// Takes those of another run in, and gives back what is left of it: nothing, or all where
    /// there is no memory for them.
    pub fn join(&mut self, mut other: SortedRun) -> SortedRun
        ensures { IsPermutation (self.old ++ other) (self.new ++ result) }
    {
        if self.placed.append(&mut other.placed).is_ok() {
            sort(self.placed.make_contiguous());
        }
        other
    }

    /// Whether one of this number is live at this moment.
    pub fn is_live(&self, number: u64, moment: Moment) -> bool
        ensures { result ≡
            list_any (λ d. d.number == number) (filter (is_live moment) self.now) }
    {
        let first = first_live(&self.placed, moment);
        self.placed
            .range(first..)
            .any(|one| one.downtime.number == number)
    }

    /// What decides on the first that is in effect at this moment, once a result came at it.
    pub fn first_in_effect(&self, moment: Moment, problem: bool) -> Option<Rank>
        ensures { result ≡ first_of (starts moment problem) (filter (is_live moment) self.now) }
    {
        match self.placed.get(first_live(&self.placed, moment)) {
            Some(first) => first.firsts.in_effect(moment, problem),
            None => None,
        }
    }

    /// Takes away what has this number, and what is past at this moment.
    pub fn cancel(&mut self, number: u64, moment: Moment)
        ensures { self.new
            ≡ filter (is_live moment) (filter (λ d. not (d.number == number)) self.old) }
    {
        remove(&mut self.placed, number);
        drop_past(&mut self.placed, moment);
    }

    /// Lets each downtime meet the result, and takes away what is past then.
    pub fn meet_result(&mut self, moment: Moment, problem: bool)
        ensures { IsPermutation
            (filter (is_live moment) (map (after_result moment problem) self.old)) self.new }
    {
        drop_past(&mut self.placed, moment);
        if problem && waits(&self.placed, moment) {
            meet_problem(&mut self.placed, moment);
            drop_past(&mut self.placed, moment);
        }
    }
}
