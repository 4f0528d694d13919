// In which order things are taken, of which some must stand before others.
ghost use Rattle.std.specs.Prelude.{◌≡◌, ◌<◌, ◌≤◌, ◌+◌, ◌-◌, ◌++◌, ◌∷◌, ◌^◌, [], ℕ, All, Some, None, length, slice_set, replicate, get_or, IfOk, OnOk, MatchOption};
ghost use Rattle.run_meaning.specs.Turns.{from_on, of_index};
ghost use Rattle.site_audit.specs.Order.{followers as followers_in, less_by, more_by, noted, one_less, one_more, order_from, order_in, zeros};

use site_base::{OutOfMemory, Row};
use std::alloc::Global;
use std::collections::BTreeSet;

/// Of two things the first must stand before the second.
#[derive(Clone, Copy)]
pub(crate) struct Pair {
    pub(crate) before: usize,
    pub(crate) behind: usize,
}

/// The order in which so many things are taken, one after another: each time the first before which none that is left must stand. `None`
/// if some can't be taken.
///
/// It takes a time that grows with the pairs and the things, times a logarithm.
pub(crate) fn order_of(
    alloc: Global,
    count: usize,
    pairs: &[Pair],
) -> Result<Option<Vec<usize>>, OutOfMemory>
    requires { All (λ p. (p.before < count) × (p.behind < count)) pairs.now }
    ensures { IfOk result (λ r. MatchOption r (order_in count pairs.now ≡ None) (λ order. order_in count pairs.now ≡ Some order.items)) }
{
    let order = all_taken(alloc, count, pairs)?;
    if order.len() == count {
        Ok(Some(order))
    } else {
        Ok(None)
    }
}

/// Those that can be taken, in order.
fn all_taken(alloc: Global, count: usize, pairs: &[Pair]) -> Result<Vec<usize>, OutOfMemory>
    requires { All (λ p. (p.before < count) × (p.behind < count)) pairs.now }
    ensures { IfOk result (λ order. order.items ≡ order_from count count pairs.now []) }
{
    let rows = rows_of(alloc, count, pairs)?;
    let mut waits = waits_of(alloc, count, pairs)?;
    let mut ready = ready_of(alloc, waits.as_slice())?;
    let mut order = Vec::new(alloc);
    for _ in 0..count {
        let Some(next) = ready.pop_first() else {
            return Ok(order);
        };
        take(&mut waits, next);
        order.push(next)?;
        let_go(rows[next].as_slice(), &mut waits, &mut ready)?;
    }
    Ok(order)
}

/// One is taken, and isn't free again.
fn take(waits: &mut Vec<usize>, next: usize)
    requires within { next < length waits.old.items }
    requires free { get_or waits.old.items next 0 ≡ 0 }
    ensures { waits.new.items ≡ one_more next waits.old.items }
{
    waits[next] += 1;
}

/// Those that must stand after one that was taken wait for one less, and may be free then.
fn let_go(
    behind: &[usize],
    waits: &mut Vec<usize>,
    ready: &mut BTreeSet<usize>,
) -> Result<(), OutOfMemory>
    requires within { All (λ k. k < length waits.old.items) behind.now }
    requires ready { ready.old.keys ≡ zeros waits.old.items }
    ensures waits { OnOk result (waits.new.items ≡ less_by behind.now waits.old.items) }
    ensures ready { OnOk result (ready.new.keys ≡ zeros waits.new.items) }
{
    for k in behind {
        release(*k, waits, ready)?;
    }
    Ok(())
}

/// One waits for one less, and is free if it waits for none.
fn release(k: usize, waits: &mut Vec<usize>, ready: &mut BTreeSet<usize>) -> Result<(), OutOfMemory>
    requires within { k < length waits.old.items }
    requires ready { ready.old.keys ≡ zeros waits.old.items }
    ensures waits { waits.new.items ≡ one_less k waits.old.items }
    ensures ready { OnOk result (ready.new.keys ≡ zeros waits.new.items) }
{
    if count_down(waits, k) > 0 {
        return Ok(());
    }
    ready.insert(k)?;
    Ok(())
}

/// One waits for one less; tells for how many.
fn count_down(waits: &mut Vec<usize>, k: usize) -> usize
    requires { k < length waits.old.items }
    ensures waits { waits.new.items ≡ one_less k waits.old.items }
    ensures left { result ≡ get_or waits.old.items k 0 - 1 }
{
    let left = waits[k].saturating_sub(1);
    waits[k] = left;
    left
}

/// For how many each waits at first.
fn waits_of(alloc: Global, count: usize, pairs: &[Pair]) -> Result<Vec<usize>, OutOfMemory>
    requires { All (λ p. (p.before < count) × (p.behind < count)) pairs.now }
    ensures { IfOk result (λ waits. waits.items ≡ more_by pairs.now (replicate count 0)) }
{
    let mut waits = vec![in alloc; 0usize; count]?;
    for pair in pairs {
        count_up(&mut waits, pair.behind);
    }
    Ok(waits)
}

/// One waits for one more.
fn count_up(waits: &mut Vec<usize>, k: usize)
    requires within { k < length waits.old.items }
    requires fits { get_or waits.old.items k 0 < 2 ^ 64 - 1 }
    ensures { waits.new.items ≡ one_more k waits.old.items }
{
    waits[k] += 1;
}

/// Those that wait for none.
fn ready_of(alloc: Global, waits: &[usize]) -> Result<BTreeSet<usize>, OutOfMemory>
    ensures { IfOk result (λ ready. ready.keys ≡ zeros waits.now) }
{
    let mut ready = BTreeSet::new(alloc);
    for (k, wait) in waits.iter().enumerate() {
        note(k, *wait, &mut ready)?;
    }
    Ok(ready)
}

/// One is free if it waits for none.
fn note(k: usize, wait: usize, ready: &mut BTreeSet<usize>) -> Result<(), OutOfMemory>
    ensures { OnOk result (ready.new.keys ≡ noted k wait ready.old.keys) }
{
    if wait > 0 {
        return Ok(());
    }
    ready.insert(k)?;
    Ok(())
}

/// For each those before which it must stand.
fn rows_of(alloc: Global, count: usize, pairs: &[Pair]) -> Result<Vec<Row<usize>>, OutOfMemory>
    requires { All (λ p. (p.before < count) × (p.behind < count)) pairs.now }
    ensures many { IfOk result (λ rows. length rows.items ≡ count) }
    ensures each { (k : ℕ) → IfOk result (λ rows. of_index k rows.items ≡ followers_in pairs.now k) }
{
    let mut rows = empty_rows(alloc, count)?;
    for pair in pairs {
        add(&mut rows, pair)?;
    }
    Ok(rows)
}

fn empty_rows(alloc: Global, count: usize) -> Result<Vec<Row<usize>>, OutOfMemory>
    ensures many { IfOk result (λ rows. length rows.items ≡ count) }
    ensures each { (k : ℕ) → IfOk result (λ rows. of_index k rows.items ≡ []) }
{
    let mut rows = Vec::with_capacity(alloc, count)?;
    for _ in 0..count {
        rows.push(Row::new(alloc))?;
    }
    Ok(rows)
}

fn add(rows: &mut Vec<Row<usize>>, pair: &Pair) -> Result<(), OutOfMemory>
    requires { pair.now.before < length rows.old.items }
    ensures many { length rows.new.items ≡ length rows.old.items }
    ensures row { OnOk result (rows.new.items ≡ slice_set rows.old.items pair.now.before (of_index pair.now.before rows.old.items ++ pair.now.behind ∷ [])) }
{
    rows[pair.before].push(pair.behind)?;
    Ok(())
}
