// Pairs of a key and a value, sorted by the keys' bytes.
ghost use Rattle.std.specs.Prelude.{◌≡◌, IfOk, IfErr, OnOk, OnErr, IfSome, IfNone, IsTrue, T, Some, None, []};
ghost use Rattle.dsl_value.specs.Pairs.{Pairs, find, is_sorted, key_cmp, put, without, IsAt, IsGapFor, dict_of};

use crate::Value;
use site_base::{OutOfMemory, Text};
use std::alloc::Global;
use std::cmp::Ordering;
use std::collections::BTreeMap;

/// So many pairs at most are sorted by being put in one after another.
const FEW: usize = 32;

/// A row has room for so many pairs once one is put into it.
const ROOM: usize = 8;

/// Where a key stands, or where it would go.
fn place_of(pairs: &[(Text, Value)], key: &str) -> Result<usize, usize>
    requires { T (is_sorted pairs.now) }
    ensures found { IfOk result (IsAt pairs.now key.now) }
    ensures absent { IfErr result (IsGapFor pairs.now key.now) }
{
    let mut low = 0;
    let mut high = pairs.len();
    while low < high {
        let middle = low + (high - low) / 2;
        match key_order(pairs[middle].0.as_str(), key) {
            Ordering::Less => low = middle + 1,
            Ordering::Equal => return Ok(middle),
            Ordering::Greater => high = middle,
        }
    }
    Err(low)
}

/// The order of two keys, by their bytes. Of most two the first bytes differ, and decide.
pub(crate) fn key_order(a: &str, b: &str) -> Ordering
    ensures { result ≡ key_cmp a.now b.now }
{
    match (a.as_bytes().first(), b.as_bytes().first()) {
        (Some(x), Some(y)) if x != y => x.cmp(y),
        _ => a.cmp(b),
    }
}

/// The value of a key.
pub(crate) fn value_of<'a>(pairs: &'a [(Text, Value)], key: &str) -> Option<&'a Value>
    requires { T (is_sorted pairs.now) }
    ensures found { IfSome result (λ v. find key.now pairs.now ≡ Some v.now) }
    ensures absent { IfNone result (find key.now pairs.now ≡ None) }
{
    match place_of(pairs, key) {
        Ok(at) => Some(&pairs[at].1),
        Err(_) => None,
    }
}

/// Gives a key a value.
pub(crate) fn put_pair(
    pairs: &mut Vec<(Text, Value)>,
    key: &Text,
    value: Value,
) -> Result<(), OutOfMemory>
    requires { T (is_sorted pairs.old.items) }
    ensures ok { OnOk result (pairs.new.items ≡ put key.now value pairs.old.items) }
    ensures err { OnErr result (pairs.new.items ≡ pairs.old.items) }
{
    match place_of(pairs, key.as_str()) {
        Ok(at) => {
            pairs[at].1 = value;
            Ok(())
        }
        Err(at) => {
            let key = key.clone()?;
            Ok(pairs.insert(at, (key, value))?)
        }
    }
}

/// The same in a row that others are put into as well. It takes room for some of them at once.
pub(crate) fn put_with_room(
    pairs: &mut Vec<(Text, Value)>,
    key: &Text,
    value: Value,
) -> Result<(), OutOfMemory>
    requires { T (is_sorted pairs.old.items) }
    ensures ok { OnOk result (pairs.new.items ≡ put key.now value pairs.old.items) }
    ensures err { OnErr result (pairs.new.items ≡ pairs.old.items) }
{
    if pairs.is_empty() {
        pairs.reserve(ROOM)?;
    }
    put_pair(pairs, key, value)
}

/// Takes a key's pair out.
pub(crate) fn remove_pair(pairs: &mut Vec<(Text, Value)>, key: &str)
    requires { T (is_sorted pairs.old.items) }
    ensures { pairs.new.items ≡ without key.now pairs.old.items }
{
    match place_of(pairs, key) {
        Ok(at) => {
            pairs.remove(at);
        }
        Err(_) => {}
    }
}

/// Whether each key is above the one before it.
fn rises(pairs: &[(Text, Value)]) -> bool
    ensures { IsTrue result → T (is_sorted pairs.now) }
{
    pairs.is_sorted_by(|one, next| key_order(one.0.as_str(), next.0.as_str()).is_lt())
}

/// Sorts pairs by their keys. Of equal keys the last has its value kept. Pairs that rise, as most do, stay as they are.
pub(crate) fn sorted_pairs(
    alloc: Global,
    pairs: Vec<(Text, Value)>,
) -> Result<Vec<(Text, Value)>, OutOfMemory>
    ensures { IfOk result (λ v. v.items ≡ dict_of pairs.items []) }
{
    if rises(&pairs) {
        return Ok(pairs);
    }
    if pairs.len() <= FEW {
        return put_in_turn(alloc, pairs);
    }
    pairs_by_key(alloc, pairs)
}

/// The same for few pairs, each of which is put among those before it.
fn put_in_turn(alloc: Global, pairs: Vec<(Text, Value)>) -> Result<Vec<(Text, Value)>, OutOfMemory>
    ensures { IfOk result (λ v. v.items ≡ dict_of pairs.items []) }
{
    let mut sorted = Vec::with_capacity(alloc, pairs.len())?;
    for (key, value) in pairs {
        put_pair(&mut sorted, &key, value)?;
    }
    Ok(sorted)
}

/// The same for any number of pairs. It isn't inlined, so that those that rise don't pay for its room.
#[inline(never)]
fn pairs_by_key(alloc: Global, pairs: Vec<(Text, Value)>) -> Result<Vec<(Text, Value)>, OutOfMemory>
    ensures { IfOk result (λ v. v.items ≡ dict_of pairs.items []) }
{
    let mut by_key = BTreeMap::new(alloc);
    for (key, value) in pairs {
        by_key.insert(key, value)?;
    }
    let mut sorted = Vec::with_capacity(alloc, by_key.len())?;
    for pair in by_key {
        sorted.push(pair)?;
    }
    Ok(sorted)
}
