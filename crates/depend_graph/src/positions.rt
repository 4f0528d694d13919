// Where numbers stand in a list.
ghost use Rattle.std.specs.Prelude.{◌≡◌, ◌++◌, ◌∷◌, [], ℕ, List, IfOk, OnOk, length, nat_eq};
ghost use Rattle.std.specs.HashMap.{get_by};
ghost use Rattle.depend_graph.specs.Positions.{ArePositions, HasPlaces};

use site_base::OutOfMemory;
use std::alloc::Global;
use std::collections::HashMap;

/// Where each number stands in a list, looked up by hash.
#[derive(Drop)]
pub(crate) struct Positions {
    by_number: HashMap<u32, usize>,
}

impl Positions {
    /// The places of these numbers.
    pub(crate) fn of(alloc: Global, numbers: &[u32]) -> Result<Positions, OutOfMemory>
        ensures { IfOk result (ArePositions numbers.now) }
    {
        let mut by_number = HashMap::with_capacity(alloc, numbers.len())?;
        for (place, number) in numbers.iter().enumerate() {
            add(&mut by_number, *number, place)?;
        }
        Ok(Positions { by_number })
    }

    /// The place of a number.
    pub(crate) fn get(&self, number: u32) -> Option<usize>
        ensures { result ≡ get_by (nat_eq number) self.now.by_number }
    {
        self.by_number.get(&number).copied()
    }
}

/// Adds a number that stands at a place, behind those that stand before it.
fn add(by_number: &mut HashMap<u32, usize>, number: u32, place: usize) -> Result<(), OutOfMemory>
    ensures { (ns : List ℕ) → length ns ≡ place → HasPlaces by_number.old ns → OnOk result (HasPlaces by_number.new (ns ++ number ∷ [])) }
{
    by_number.insert(number, place)?;
    Ok(())
}
