// The way of a caller through its events.
ghost use Rattle.std.specs.Prelude.{◌≡◌, ℕ, List, map, length, true, slice_get, IfOk, option_copied};
ghost use Rattle.std.specs.List.{list_all};
ghost use Rattle.round_check.specs.Shelves.{counted, listed};
ghost use Rattle.round_check.specs.Walking.{raised};
ghost use Rattle.round_check.specs.Ways.{are_within as within_so, is_within as within_one, next_place, one_more, sees, sees_all, sights_in};

use crate::shelf::{Counts, Shelf};
use site_base::{OutOfMemory, Row};
use site_model::Sight;
use std::alloc::Global;

/// An entry of a caller: its number in the history of its checkable, and how far the caller saw.
#[derive(Drop)]
pub(crate) struct Place {
    pub(crate) number: u64,
    pub(crate) sights: Row<Sight>,
}

/// How far a caller has come: how many of its events so far are on each checkable, and how much it saw of each.
#[derive(Drop)]
pub(crate) struct Way {
    pub(crate) done: Counts,
    pub(crate) last: Counts,
}

impl Way {
    /// Goes on by the next event, which is on this checkable. `false` where it has no entry, or one that can't have seen what it saw.
    pub(crate) fn go_on(&mut self, own: &Shelf<Place>, checkable: u32) -> Result<bool, OutOfMemory>
        ensures fits { IfOk result (λ fits. fits ≡ sees_all (listed own.now.lists.entries) (counted self.old.done.counts.entries) (counted self.old.last.counts.entries) (next_place (listed own.now.lists.entries) (counted self.old.done.counts.entries) checkable)) }
        ensures done { IfOk result (λ fits. fits ≡ true → (q : ℕ) → counted self.new.done.counts.entries q ≡ one_more checkable (counted self.old.done.counts.entries) q) }
        ensures last { IfOk result (λ fits. fits ≡ true → (q : ℕ) → counted self.new.last.counts.entries q ≡ raised (sights_in (next_place (listed own.now.lists.entries) (counted self.old.done.counts.entries) checkable)) (counted self.old.last.counts.entries) q) }
    {
        let done = self.done.at(checkable);
        let Some(place) = own.at(checkable).get(done as usize) else {
            return Ok(false);
        };
        let sights = place.sights.as_slice();
        if !self.sees_all(own, sights) {
            return Ok(false);
        }
        self.last.raise_all(sights)?;
        self.done.set(checkable, done + 1)?;
        Ok(true)
    }

    /// Whether an entry of the next event can have these sights.
    #[tactic(auto, using(crate::proofs::Stepping::all_end))]
    fn sees_all(&self, own: &Shelf<Place>, sights: &[Sight]) -> bool
        ensures { result ≡ list_all (sees (listed own.now.lists.entries) (counted self.now.done.counts.entries) (counted self.now.last.counts.entries)) sights.now }
    {
        for sight in sights {
            if !self.sees(own, sight) {
                return false;
            }
        }
        true
    }

    /// Whether it can have this one: the caller saw no more before, and it has those of the caller's own entries that came before.
    fn sees(&self, own: &Shelf<Place>, sight: &Sight) -> bool
        ensures { result ≡ sees (listed own.now.lists.entries) (counted self.now.done.counts.entries) (counted self.now.last.counts.entries) sight.now }
    {
        let checkable = sight.checkable;
        are_within(own.at(checkable), self.done.at(checkable), sight.count)
            && self.last.at(checkable) <= sight.count
    }
}

/// Whether exactly the first so many of these entries are among the first `count` of their checkable.
fn are_within(places: &[Place], many: u64, count: u64) -> bool
    ensures { result ≡ within_so places.now many count }
{
    (many == 0 || is_within(places.get(many as usize - 1), count))
        && !is_within(places.get(many as usize), count)
}

/// Whether there is an entry, and it is among the first so many of its checkable.
fn is_within(place: Option<&Place>, count: u64) -> bool
    ensures { result ≡ within_one count (option_copied place.entry) }
{
    match place {
        Some(place) => place.number <= count,
        None => false,
    }
}
