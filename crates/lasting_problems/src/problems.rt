// The checkables that show a HARD problem.
ghost use Rattle.std.specs.Prelude.{◌≡◌, ◌<◌, ℕ, List, Option, [], length, slice_set, IfOk, OnErr, OnOk};
ghost use Rattle.lasting_problems.specs.Noted.{late_in, noted};

use site_base::{Moment, OutOfMemory};
use std::alloc::Global;
use std::collections::BTreeMap;
use std::marker::Model;

/// How many seconds after its last entry a checkable that shows a HARD problem is looked at again.
const PAUSE: u64 = 60;

/// The checkables that show a HARD problem, each with the moment of its last entry. Clauses see them by ascending index.
#[derive(Drop)]
pub struct Problems {
    moments: BTreeMap<u32, Moment>,
}

impl Model for Problems {
    ghost use Rattle.std.specs.Prelude.{ℕ, List};

    ghost Value = { List (ℕ × ℕ) };

    ghost view = { λ p. p.moments.entries };
}

impl Problems {
    /// Before any problem.
    pub fn new(alloc: Global) -> Problems
        ensures { result ≡ [] }
    {
        Problems {
            moments: BTreeMap::new(alloc),
        }
    }

    /// Notes what a checkable shows from now on: a HARD problem, with the moment of its last entry, or none.
    ///
    /// # Errors
    ///
    /// `OutOfMemory` if there is none for one more; it is then as before.
    #[tactic(auto, using(crate::proofs::Noting::inserted, crate::proofs::Noting::removed))]
    pub fn note(&mut self, checkable: u32, moment: Option<Moment>) -> Result<(), OutOfMemory>
        ensures noted { (ms : List (Option ℕ)) → checkable < length ms → self.old ≡ noted ms → OnOk result (self.new ≡ noted (slice_set ms checkable moment)) }
        ensures err { OnErr result (self.new ≡ self.old) }
    {
        match moment {
            Some(moment) => {
                self.moments.insert(checkable, moment)?;
            }
            None => {
                self.moments.remove(&checkable);
            }
        }
        Ok(())
    }

    /// Those whose last entry is a minute old at a moment, ascending. It takes a time that grows with all that show a problem.
    ///
    /// # Errors
    ///
    /// `OutOfMemory` if there is none for the answer.
    pub fn late(&self, alloc: Global, moment: Moment) -> Result<Vec<u32>, OutOfMemory>
        ensures { IfOk result (λ ks. ks.items ≡ late_in moment self.now) }
    {
        late_among(alloc, &self.moments, moment)
    }
}

fn late_among(
    alloc: Global,
    moments: &BTreeMap<u32, Moment>,
    moment: Moment,
) -> Result<Vec<u32>, OutOfMemory>
    ensures { IfOk result (λ ks. ks.items ≡ late_in moment moments.now.entries) }
{
    let mut late = Vec::new(alloc);
    for (checkable, last) in moments {
        if last.secs() + PAUSE <= moment.secs() {
            late.push(*checkable)?;
        }
    }
    Ok(late)
}
