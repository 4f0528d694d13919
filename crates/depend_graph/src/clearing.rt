// Checkables that are on no cycle, and below none.
ghost use Rattle.std.specs.Prelude.{◌≡◌, ◌<◌, ◌≤◌, ◌+◌, ◌*◌, ◌++◌, ◌∷◌, [], ℕ, true, false, IfOk, OnOk, All, length, slice_index, slice_index_or, slice_set, if◌then◌else◌};
ghost use Rattle.run_meaning.specs.Turns.{of_index};
ghost use Rattle.depend_graph.specs.Clearing.{AreCleared, AreClearedUpTo, IsClearing, IsClimb, left};
ghost use Rattle.depend_graph.specs.Search.{AreBelow};

use crate::lists::Lists;
use site_base::OutOfMemory;
use std::alloc::Global;

/// A checkable that is cleared once its parents are: those before a place are cleared.
#[derive(Drop)]
struct Climb {
    checkable: usize,
    next: usize,
}

/// Which checkables are on no cycle and below none: those without parents are cleared, and then one after another whose parents
/// all are. It takes a time that grows with the checkables and their parents, and memory that grows with the checkables.
pub(crate) fn cleared(alloc: Global, parents: &Lists) -> Result<Vec<bool>, OutOfMemory>
    requires { AreBelow (length parents.now) parents.now }
    ensures { IfOk result (λ v. AreCleared parents.now v.items) }
{
    let mut met = vec![in alloc; false; parents.len()]?;
    let mut cleared = vec![in alloc; false; parents.len()]?;
    let mut begun = Vec::new(alloc);
    for checkable in 0..parents.len() {
        meet(&mut begun, checkable, &mut met)?;
        clear_begun(parents, &mut begun, &mut met, &mut cleared)?;
    }
    Ok(cleared)
}

/// Puts a checkable that wasn't met yet with those that are begun.
fn meet(begun: &mut Vec<Climb>, checkable: usize, met: &mut Vec<bool>) -> Result<(), OutOfMemory>
    requires { checkable < length met.old.items }
    ensures begun { OnOk result (begun.new.items ≡ (if slice_index_or met.old.items checkable true then begun.old.items else begun.old.items ++ record { checkable = checkable; next = 0 } ∷ [])) }
    ensures length { length met.new.items ≡ length met.old.items }
    ensures left { slice_index_or met.old.items checkable true ≡ false → left met.new.items + 1 ≡ left met.old.items }
{
    if met[checkable] {
        return Ok(());
    }
    met[checkable] = true;
    begun.push(Climb { checkable, next: 0 })?;
    Ok(())
}

/// Clears those that are begun, and what is above them, as far as no cycle holds them back.
fn clear_begun(
    parents: &Lists,
    begun: &mut Vec<Climb>,
    met: &mut Vec<bool>,
    cleared: &mut Vec<bool>,
) -> Result<(), OutOfMemory>
    requires below { AreBelow (length parents.now) parents.now }
    requires before { IsClearing parents.now met.old.items cleared.old.items begun.old.items }
    ensures { OnOk result (IsClearing parents.now met.new.items cleared.new.items begun.new.items) }
{
    while let Some(climb) = begun.pop() {
        climb_on(parents, climb, begun, met, cleared)?;
    }
    Ok(())
}

/// Clears a checkable whose parents all are, and else looks at the first that isn't before it.
fn climb_on(
    parents: &Lists,
    climb: Climb,
    begun: &mut Vec<Climb>,
    met: &mut Vec<bool>,
    cleared: &mut Vec<bool>,
) -> Result<(), OutOfMemory>
    requires below { AreBelow (length parents.now) parents.now }
    requires climb { IsClimb parents.now cleared.old.items climb }
    requires before { IsClearing parents.now met.old.items cleared.old.items begun.old.items }
    ensures after { OnOk result (IsClearing parents.now met.new.items cleared.new.items begun.new.items) }
    ensures less { OnOk result (2 * left met.new.items + length begun.new.items ≤ 2 * left met.old.items + length begun.old.items) }
{
    let own = parents.at(climb.checkable);
    let next = first_left(own, climb.next, cleared.as_slice());
    if next < own.len() {
        let parent = own[next] as usize;
        let checkable = climb.checkable;
        return wait_for(begun, Climb { checkable, next }, parent, met);
    }
    cleared[climb.checkable] = true;
    Ok(())
}

/// The first place, from this one on, of a parent that isn't cleared; none is past the last.
fn first_left(parents: &[u32], from: usize, cleared: &[bool]) -> usize
    requires below { All (λ p. p < length cleared.now) parents.now }
    requires from { AreClearedUpTo parents.now cleared.now from }
    ensures { AreClearedUpTo parents.now cleared.now result }
{
    let mut place = from;
    while place < parents.len() {
        if !cleared[parents[place] as usize] {
            return place;
        }
        place += 1;
    }
    place
}

/// Puts a checkable back until its parent was looked at, where that wasn't met yet; else a cycle holds it back.
fn wait_for(
    begun: &mut Vec<Climb>,
    climb: Climb,
    parent: usize,
    met: &mut Vec<bool>,
) -> Result<(), OutOfMemory>
    requires { parent < length met.old.items }
    ensures begun { OnOk result (begun.new.items ≡ (if slice_index_or met.old.items parent true then begun.old.items else begun.old.items ++ climb ∷ record { checkable = parent; next = 0 } ∷ [])) }
    ensures length { length met.new.items ≡ length met.old.items }
    ensures less { OnOk result (2 * left met.new.items + length begun.new.items ≤ 2 * left met.old.items + length begun.old.items) }
{
    if met[parent] {
        return Ok(());
    }
    begun.push(climb)?;
    meet(begun, parent, met)
}
