// All checkables on which one depends, found by steps from child to parent.
ghost use Rattle.std.specs.Prelude.{◌≡◌, ◌<◌, ◌≤◌, ◌^◌, ℕ, All, AllPairs, IfOk, OnOk, IsPermutation, length};
ghost use Rattle.site_model.specs.PlainSite.{PlainSite};
ghost use Rattle.site_model.specs.Sound.{AreDistinct};
ghost use Rattle.run_meaning.specs.Turns.{of_index};
ghost use Rattle.depend_graph.specs.Parents.{AreParents};
ghost use Rattle.depend_graph.specs.Search.{added, AreMarked, AreAbove, AreBelow, AreAllAbove};

use crate::lists::Lists;
use site_base::{OutOfMemory, Row};
use std::alloc::Global;

/// The ancestors of each checkable, ascending. A checkable that stands on a cycle is found among its own.
pub(crate) fn all_above(alloc: Global, parents: &Lists) -> Result<Lists, OutOfMemory>
    requires few { length parents.now < 2 ^ 32 }
    requires below { AreBelow (length parents.now) parents.now }
    ensures length { IfOk result (λ l. length l ≡ length parents.now) }
    ensures above { (s : PlainSite) → AreParents s parents.now → IfOk result (AreAllAbove s) }
    ensures rising { IfOk result (λ l. (c : ℕ) → AllPairs (λ j k. j < k) (of_index c l)) }
{
    let count = parents.len();
    let mut marks = vec![in alloc; 0; count]?;
    let mut lists = Lists::empty(alloc, 0)?;
    for checkable in 0..count {
        let mark = checkable as u32 + 1;
        let found = above(alloc, parents, checkable, mark, &mut marks)?;
        lists.add(ascending(alloc, found.as_slice())?)?;
    }
    Ok(lists)
}

/// Numbers, each of which is there once, in ascending order and in no more memory than they take.
fn ascending(alloc: Global, numbers: &[u32]) -> Result<Row<u32>, OutOfMemory>
    requires { AreDistinct numbers.now }
    ensures same { IfOk result (λ r. IsPermutation numbers.now r) }
    ensures rising { IfOk result (AllPairs (λ j k. j < k)) }
{
    let mut sorted = Vec::from_slice(alloc, numbers)?;
    sorted.sort_unstable();
    Ok(Row::from(sorted))
}

/// The ancestors of one checkable. Each that is found is marked by this mark, which none bears before.
pub(crate) fn above(
    alloc: Global,
    parents: &Lists,
    checkable: usize,
    mark: u32,
    marks: &mut Vec<u32>,
) -> Result<Row<u32>, OutOfMemory>
    requires checkable { checkable < length parents.now }
    requires below { AreBelow (length parents.now) parents.now }
    requires length { length marks.old.items ≡ length parents.now }
    requires unmarked { All (λ m. m < mark) marks.old.items }
    ensures length { length marks.new.items ≡ length parents.now }
    ensures marked { All (λ m. m ≤ mark) marks.new.items }
    ensures above { (s : PlainSite) → AreParents s parents.now → IfOk result (AreAbove s checkable) }
    ensures once { IfOk result (λ r. AreDistinct r) }
{
    let mut found = Vec::new(alloc);
    add_unmarked(&mut found, parents.at(checkable), mark, marks)?;
    let mut next = 0;
    while next < found.len() {
        let at = found[next] as usize;
        next += 1;
        add_unmarked(&mut found, parents.at(at), mark, marks)?;
    }
    Ok(Row::from(found))
}

/// Adds those that aren't marked yet, and marks them.
fn add_unmarked(
    found: &mut Vec<u32>,
    parents: &[u32],
    mark: u32,
    marks: &mut Vec<u32>,
) -> Result<(), OutOfMemory>
    requires marked { AreMarked mark found.old.items marks.old.items }
    requires below { All (λ p. p < length marks.old.items) parents.now }
    ensures found { OnOk result (found.new.items ≡ added found.old.items parents.now) }
    ensures marked { OnOk result (AreMarked mark found.new.items marks.new.items) }
    ensures length { length marks.new.items ≡ length marks.old.items }
    ensures most { All (λ m. m ≤ mark) marks.old.items → All (λ m. m ≤ mark) marks.new.items }
{
    for parent in parents {
        let place = *parent as usize;
        if marks[place] != mark {
            marks[place] = mark;
            found.push(*parent)?;
        }
    }
    Ok(())
}
