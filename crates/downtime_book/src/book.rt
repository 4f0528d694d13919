// The downtimes of one checkable.
ghost use Rattle.std.specs.Prelude.{◌≡◌, ◌≤◌, ◌↔◌, ◌==◌, List, [], ◌∷◌, ◌++◌};
ghost use Rattle.std.specs.Prelude.{IsTrue, OnOk, OnErr, is_ok, length};

use crate::downtime::Downtime;
use crate::kind::Kind;
use crate::no_downtime::NoDowntime;
use crate::runs::{cancel, count, drop_empty, first_in_effect, meet_result, put};
use crate::sorted_run::SortedRun;
use site_base::{Moment, OutOfMemory};
use std::alloc::Global;
use std::marker::Model;

/// A book of downtimes, which answers by what was added, resulted and cancelled.
///
/// Moments don't fall: none is below the latest one that a result or a cancel brought. So the book
/// keeps only what wasn't past then: past downtimes cost neither time nor memory. The others lie in a
/// few runs, each about twice as long as the next, in which each downtime knows what comes first of
/// those that end no earlier. So what is in effect, also after a result, is found by halving each run,
/// and a result that triggers none walks over none. One that triggers some walks over the runs in
/// which they lie, `cancel` and `is_live` walk over all, and `add` moves each downtime as many times
/// as there are runs. Only `add` takes memory.
#[derive(Drop)]
pub struct Book {
    latest: Moment,
    /// How many downtimes there are.
    count: usize,
    runs: Vec<SortedRun>,
}

impl Model for Book {
    ghost use Rattle.std.specs.Prelude.{◌≡◌, length};
    ghost use Rattle.downtime_book.specs.Contents.{Contents, together};

    ghost Value = { Contents };

    ghost view = { λ b. record { latest = b.latest; downtimes = together b.runs.items } };

    ghost invariant = { λ b. b.count ≡ length (together b.runs.items) };
}

impl Book {
    ghost use Rattle.downtime_book.specs.Calls.{Call, added, resulted, cancelled};
    ghost use Rattle.downtime_book.specs.Calls.{downtimes, is_live_in};
    ghost use Rattle.downtime_book.specs.Contents.{StandsFor, live_downtimes};
    ghost use Rattle.downtime_book.specs.Naming.{named, Names};

    /// A book without a downtime.
    pub fn new(alloc: Global) -> Book
        ensures empty { StandsFor result [] }
        ensures latest { result.latest ≡ 0 }
    {
        Book {
            latest: Moment::of(0).unwrap(),
            count: 0,
            runs: Vec::new(alloc),
        }
    }

    /// The latest moment that a result or a cancel brought, or 0.
    pub fn latest(&self) -> Moment
        ensures { result ≡ self.now.latest }
    {
        self.latest
    }

    /// How many downtimes the book keeps: those that weren't past at its latest moment.
    pub fn len(&self) -> usize
        ensures kept { result ≡ length self.now.downtimes }
        ensures live { (calls : List Call) → StandsFor self.now calls →
            result ≡ length (live_downtimes calls) }
    {
        self.count
    }

    /// Whether it keeps none.
    pub fn is_empty(&self) -> bool
        ensures kept { IsTrue result ↔ (self.now.downtimes ≡ []) }
        ensures live { (calls : List Call) → StandsFor self.now calls →
            result ≡ (length (live_downtimes calls) == 0) }
    {
        self.count == 0
    }

    /// Adds a downtime from `start` up to but not at `end`. A flexible one is in effect for
    /// `duration` seconds from its trigger on; of a fixed one the duration counts for nothing. The
    /// number names it from then on, so a caller gives each number once; of two downtimes with one
    /// number a cancel takes both away. One whose span is empty is never in effect.
    ///
    /// # Errors
    ///
    /// `OutOfMemory` if there is none for one more downtime; the book is then as before.
    pub fn add(
        &mut self,
        number: u64,
        start: Moment,
        end: Moment,
        fixed: bool,
        duration: u64,
    ) -> Result<(), OutOfMemory>
        ensures ok { OnOk result ((calls : List Call) → StandsFor self.old calls →
            StandsFor self.new (calls ++ added number start end fixed duration ∷ [])) }
        ensures latest { self.new.latest ≡ self.old.latest }
        ensures err { OnErr result (self.new ≡ self.old) }
    {
        if end <= self.latest {
            return Ok(());
        }
        let downtime = Downtime {
            number,
            start,
            end,
            kind: Kind::new(fixed, duration),
        };
        let Some(count) = self.count.checked_add(1) else {
            return Err(OutOfMemory);
        };
        put(&mut self.runs, downtime)?;
        self.count = count;
        Ok(())
    }

    /// Takes the downtime of this number away for good.
    ///
    /// # Errors
    ///
    /// `NoDowntime` where no downtime of this number is live; the book is then as before.
    pub fn cancel(&mut self, number: u64, moment: Moment) -> Result<(), NoDowntime>
        requires { self.old.latest ≤ moment }
        ensures live { (calls : List Call) → StandsFor self.old calls →
            is_ok result ≡ is_live_in calls number moment }
        ensures ok { OnOk result ((calls : List Call) → StandsFor self.old calls →
            StandsFor self.new (calls ++ cancelled number moment ∷ [])) }
        ensures latest { OnOk result (self.new.latest ≡ moment) }
        ensures err { OnErr result (self.new ≡ self.old) }
    {
        if !self.is_live(number, moment) {
            return Err(NoDowntime);
        }
        self.latest = moment;
        cancel(&mut self.runs, number, moment);
        drop_empty(&mut self.runs);
        self.count = count(&self.runs, self.count);
        Ok(())
    }

    /// Whether a downtime of this number is live at this moment: neither cancelled nor past.
    pub fn is_live(&self, number: u64, moment: Moment) -> bool
        requires { self.now.latest ≤ moment }
        ensures { (calls : List Call) → StandsFor self.now calls →
            result ≡ is_live_in calls number moment }
    {
        self.runs.iter().any(|run| run.is_live(number, moment))
    }

    /// Takes note of a result. A problem triggers each flexible downtime that waits for one.
    pub fn on_result(&mut self, moment: Moment, problem: bool)
        requires { self.old.latest ≤ moment }
        ensures stands { (calls : List Call) → StandsFor self.old calls →
            StandsFor self.new (calls ++ resulted moment problem ∷ []) }
        ensures latest { self.new.latest ≡ moment }
    {
        self.latest = moment;
        meet_result(&mut self.runs, moment, problem);
        drop_empty(&mut self.runs);
        self.count = count(&self.runs, self.count);
    }

    /// The number of the downtime that is in effect at this moment: of several the one that starts
    /// first, and among those the one with the least number.
    pub fn in_effect(&self, moment: Moment) -> Option<u64>
        requires { self.now.latest ≤ moment }
        ensures value { (calls : List Call) → StandsFor self.now calls →
            result ≡ named moment (downtimes calls) }
        ensures first { (calls : List Call) → StandsFor self.now calls →
            Names moment (downtimes calls) result }
    {
        first_in_effect(&self.runs, moment, false)
    }

    /// What `in_effect` gives at this moment once `on_result` took this result. It changes nothing.
    pub fn in_effect_after(&self, moment: Moment, problem: bool) -> Option<u64>
        requires { self.now.latest ≤ moment }
        ensures value { (calls : List Call) → StandsFor self.now calls →
            result ≡ named moment (downtimes (calls ++ resulted moment problem ∷ [])) }
        ensures first { (calls : List Call) → StandsFor self.now calls →
            Names moment (downtimes (calls ++ resulted moment problem ∷ [])) result }
    {
        first_in_effect(&self.runs, moment, problem)
    }
}
