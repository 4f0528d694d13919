// Lists by checkable, and counts by checkable.
ghost use Rattle.std.specs.Prelude.{◌≡◌, ◌++◌, ◌∷◌, ℕ, [], max, nat_eq, OnOk, if◌then◌else◌};
ghost use Rattle.round_check.specs.Shelves.{counted, listed};
ghost use Rattle.round_check.specs.Walking.{raised};

use site_base::OutOfMemory;
use site_model::Sight;
use std::alloc::Global;
use std::collections::BTreeMap;

/// A list for each checkable, which is empty before anything is put there.
#[derive(Drop)]
pub(crate) struct Shelf<T: Drop> {
    pub(crate) lists: BTreeMap<u32, Vec<T>>,
}

impl<T: Drop> Shelf<T> {
    pub(crate) fn new(alloc: Global) -> Shelf<T>
        ensures { (q : ℕ) → listed result.lists.entries q ≡ [] }
    {
        Shelf {
            lists: BTreeMap::new(alloc),
        }
    }

    /// The list of a checkable.
    pub(crate) fn at(&self, checkable: u32) -> &[T]
        ensures { result.now ≡ listed self.now.lists.entries checkable }
    {
        match self.lists.get(&checkable) {
            Some(list) => list.as_slice(),
            None => &[],
        }
    }

    /// Adds one at the end of a checkable's list.
    pub(crate) fn push(&mut self, alloc: Global, checkable: u32, item: T) -> Result<(), OutOfMemory>
        ensures { (q : ℕ) → OnOk result (listed self.new.lists.entries q ≡ listed self.old.lists.entries q ++ (if nat_eq checkable q then item ∷ [] else [])) }
    {
        if let Some(list) = self.lists.get_mut(&checkable) {
            list.push(item)?;
            return Ok(());
        }
        let mut list = Vec::with_capacity(alloc, 1)?;
        list.push(item)?;
        self.lists.insert(checkable, list)?;
        Ok(())
    }
}

/// A count for each checkable, which begins with 0.
#[derive(Drop)]
pub(crate) struct Counts {
    pub(crate) counts: BTreeMap<u32, u64>,
}

impl Counts {
    pub(crate) fn new(alloc: Global) -> Counts
        ensures { (q : ℕ) → counted result.counts.entries q ≡ 0 }
    {
        Counts {
            counts: BTreeMap::new(alloc),
        }
    }

    /// The count of a checkable.
    pub(crate) fn at(&self, checkable: u32) -> u64
        ensures { result ≡ counted self.now.counts.entries checkable }
    {
        match self.counts.get(&checkable) {
            Some(count) => *count,
            None => 0,
        }
    }

    /// Has the count of a checkable be this one.
    pub(crate) fn set(&mut self, checkable: u32, count: u64) -> Result<(), OutOfMemory>
        ensures { (q : ℕ) → OnOk result (counted self.new.counts.entries q ≡ (if nat_eq checkable q then count else counted self.old.counts.entries q)) }
    {
        self.counts.insert(checkable, count)?;
        Ok(())
    }

    /// Has the count of a checkable be no less than this one.
    fn raise(&mut self, checkable: u32, count: u64) -> Result<(), OutOfMemory>
        ensures { (q : ℕ) → OnOk result (counted self.new.counts.entries q ≡ (if nat_eq checkable q then max (counted self.old.counts.entries q) count else counted self.old.counts.entries q)) }
    {
        if self.at(checkable) < count {
            self.set(checkable, count)?;
        }
        Ok(())
    }

    /// Has the count of each checkable be no less than what was seen of it.
    #[tactic(auto, using(crate::proofs::Stepping::raise_end))]
    pub(crate) fn raise_all(&mut self, sights: &[Sight]) -> Result<(), OutOfMemory>
        ensures { (q : ℕ) → OnOk result (counted self.new.counts.entries q ≡ raised sights.now (counted self.old.counts.entries) q) }
    {
        for sight in sights {
            self.raise(sight.checkable, sight.count)?;
        }
        Ok(())
    }
}
