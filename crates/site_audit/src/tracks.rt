// In which order things are taken that stand on tracks.
ghost use Rattle.std.specs.Prelude.{◌≡◌, ◌<◌, ◌+◌, ◌++◌, All, Some, None, length, IfOk, OnOk, IsPermutation, MatchOption};
ghost use Rattle.std.specs.List.Sorted.{IsNonDecreasingBy};
ghost use Rattle.site_audit.specs.Tracks.{gate_pairs, low_behind as low_after, low_from as low_within, low_of as low_for, next_behind as next_after, next_from as next_within, next_of as next_for, pair_with, same_track, spot_pairs, taken_in, things_of as things_in};

use crate::order::{Pair, order_of};
use site_base::{OutOfMemory, Row};
use std::alloc::Global;

/// Where a thing stands: an instant on a track. Of two things on one track the earlier must stand before the later.
#[derive(Clone, Copy)]
pub(crate) struct Spot {
    /// The track times 2^80, and the instant, which is below that.
    pub(crate) at: u128,
    pub(crate) thing: usize,
}

/// How many instants a track has.
pub(crate) const TRACK: u128 = 1 << 80;

/// A spot, with the gate after those that are earlier than it on its track.
#[derive(Clone, Copy)]
pub(crate) struct Last {
    pub(crate) spot: Spot,
    pub(crate) low: Option<usize>,
}

/// The order in which so many things are taken, one after another: each time the first before which none that is left must stand. `None`
/// if some can't be taken.
///
/// It takes a time that grows with the spots and the things, times a logarithm. Spots in order have a gate after each, which is open once
/// all things up to it on its track are taken; a thing waits for the gate after those that are earlier than it.
pub(crate) fn take_all(
    alloc: Global,
    count: usize,
    spots: Row<Spot>,
) -> Result<Option<Vec<usize>>, OutOfMemory>
    requires { All (λ x. x.thing < count) spots }
    ensures { IfOk result (λ r. MatchOption r (taken_in count spots ≡ None) (λ order. taken_in count spots ≡ Some order.items)) }
{
    let sorted = in_order(spots)?;
    take_sorted(alloc, count, sorted.as_slice())
}

fn in_order(spots: Row<Spot>) -> Result<Vec<Spot>, OutOfMemory>
    ensures same { IfOk result (λ sorted. IsPermutation spots sorted.items) }
    ensures sorted { IfOk result (λ sorted. IsNonDecreasingBy (λ x. x.at) sorted.items) }
{
    let mut sorted = spots.into_vec();
    sorted.sort_by_key(|spot| spot.at)?;
    Ok(sorted)
}

/// The same of spots in order.
fn take_sorted(
    alloc: Global,
    count: usize,
    spots: &[Spot],
) -> Result<Option<Vec<usize>>, OutOfMemory>
    requires things { All (λ x. x.thing < count) spots.now }
    requires sorted { IsNonDecreasingBy (λ x. x.at) spots.now }
    ensures { IfOk result (λ r. MatchOption r (taken_in count spots.now ≡ None) (λ order. taken_in count spots.now ≡ Some order.items)) }
{
    let gates = spots.len();
    let Some(all) = gates.checked_add(count) else {
        return Err(OutOfMemory);
    };
    let pairs = pairs_of(alloc, gates, all, spots)?;
    match order_of(alloc, all, pairs.as_slice())? {
        Some(order) => Ok(Some(things_of(alloc, gates, order.as_slice())?)),
        None => Ok(None),
    }
}

/// Which things and gates must stand before which.
fn pairs_of(
    alloc: Global,
    gates: usize,
    all: usize,
    spots: &[Spot],
) -> Result<Vec<Pair>, OutOfMemory>
    requires gates { gates ≡ length spots.now }
    requires things { All (λ x. gates + x.thing < all) spots.now }
    ensures { IfOk result (λ pairs. pairs.items ≡ gate_pairs gates 0 None spots.now) }
{
    let mut pairs = Vec::new(alloc);
    let mut last = None;
    for (gate, spot) in spots.iter().enumerate() {
        let low = low_of(last, gate, *spot);
        add_spot(
            gates + spot.thing,
            gate,
            low,
            next_of(last, gate, *spot),
            &mut pairs,
        )?;
        last = Some(Last { spot: *spot, low });
    }
    Ok(pairs)
}

/// The gate for which a spot waits, if the gates before it are so many.
fn low_of(last: Option<Last>, gates: usize, spot: Spot) -> Option<usize>
    ensures { result ≡ low_for last gates spot }
{
    match last {
        Some(last) => low_from(last, gates, spot),
        None => None,
    }
}

#[tactic(auto, using(crate::proofs::Tracking::no_low, crate::proofs::Tracking::low_at))]
fn low_from(last: Last, gates: usize, spot: Spot) -> Option<usize>
    ensures { result ≡ low_within last gates spot }
{
    if gates == 0 {
        None
    } else {
        low_behind(last, gates - 1, spot)
    }
}

fn low_behind(last: Last, gate: usize, spot: Spot) -> Option<usize>
    ensures { result ≡ low_after last gate spot }
{
    if !on_one_track(last.spot, spot) {
        return None;
    }
    if last.spot.at < spot.at {
        Some(gate)
    } else {
        last.low
    }
}

/// The gate before its own on its track.
fn next_of(last: Option<Last>, gates: usize, spot: Spot) -> Option<usize>
    ensures { result ≡ next_for last gates spot }
{
    match last {
        Some(last) => next_from(last, gates, spot),
        None => None,
    }
}

#[tactic(auto, using(crate::proofs::Tracking::no_next, crate::proofs::Tracking::next_at))]
fn next_from(last: Last, gates: usize, spot: Spot) -> Option<usize>
    ensures { result ≡ next_within last gates spot }
{
    if gates == 0 {
        None
    } else {
        next_behind(last, gates - 1, spot)
    }
}

fn next_behind(last: Last, gate: usize, spot: Spot) -> Option<usize>
    ensures { result ≡ next_after last gate spot }
{
    if on_one_track(last.spot, spot) {
        Some(gate)
    } else {
        None
    }
}

fn on_one_track(a: Spot, b: Spot) -> bool
    ensures { result ≡ same_track a b }
{
    a.at / TRACK == b.at / TRACK
}

/// A thing waits for the gates before a spot of it, and the gate after that for the thing and the gate before it.
fn add_spot(
    thing: usize,
    gate: usize,
    low: Option<usize>,
    next: Option<usize>,
    pairs: &mut Vec<Pair>,
) -> Result<(), OutOfMemory>
    ensures { OnOk result (pairs.new.items ≡ pairs.old.items ++ spot_pairs thing gate low next) }
{
    add_pair(low, thing, pairs)?;
    add_pair(next, gate, pairs)?;
    add_pair(Some(thing), gate, pairs)
}

fn add_pair(before: Option<usize>, behind: usize, pairs: &mut Vec<Pair>) -> Result<(), OutOfMemory>
    ensures { OnOk result (pairs.new.items ≡ pairs.old.items ++ pair_with before behind) }
{
    if let Some(before) = before {
        pairs.push(Pair { before, behind })?;
    }
    Ok(())
}

/// The things among gates and things.
fn things_of(alloc: Global, gates: usize, order: &[usize]) -> Result<Vec<usize>, OutOfMemory>
    ensures { IfOk result (λ things. things.items ≡ things_in gates order.now) }
{
    let mut things = Vec::new(alloc);
    for k in order {
        if *k >= gates {
            things.push(*k - gates)?;
        }
    }
    Ok(things)
}
