// Sorted pairs that lie in several rows.
ghost use Rattle.std.specs.Prelude.{◌≡◌, ◌+◌, ◌<◌, ◌≤◌, ◌++◌, [], IfOk, OnOk, OnErr, IfSome, IfNone, T, Some, None, length, slice_get};
ghost use Rattle.dsl_value.specs.Pairs.{find, is_sorted, put, without};
ghost use Rattle.dsl_value.specs.Rows.{joined, AreFull, IsBetween};

use crate::Value;
use crate::pairs::{key_order, put_pair, remove_pair, value_of};
use crate::pairs_left::PairsLeft;
use site_base::{OutOfMemory, Text};
use std::alloc::Global;
use std::cmp::Ordering;
use std::marker::Model;

/// How many pairs a row has that is split in two before one more is put into it.
const FULL: usize = 512;

/// How many pairs go into each row where pairs are dealt out.
const HALF: usize = 256;

/// Pairs by rising keys in rows that aren't long, so that one can be put in or taken out anywhere without a move of many.
#[derive(Drop)]
pub(crate) struct PairRows {
    rows: Vec<Vec<(Text, Value)>>,
    count: usize,
}

impl Model for PairRows {
    ghost use Rattle.std.specs.Prelude.{◌≡◌, T, length};
    ghost use Rattle.dsl_value.specs.Pairs.{Pairs, is_sorted};
    ghost use Rattle.dsl_value.specs.Rows.{joined, AreFull};

    ghost Value = { Pairs };

    ghost view = { λ r. joined r.rows.items };

    ghost invariant = { λ r. AreFull r.rows.items × (r.count ≡ length (joined r.rows.items)) × T (is_sorted (joined r.rows.items)) };
}

impl PairRows {
    /// Copies of these pairs, which rise.
    pub(crate) fn of_row(alloc: Global, row: &[(Text, Value)]) -> Result<PairRows, OutOfMemory>
        requires { T (is_sorted row.now) }
        ensures { IfOk result (λ r. r ≡ row.now) }
    {
        Ok(PairRows {
            rows: dealt_out(alloc, row)?,
            count: row.len(),
        })
    }

    pub(crate) fn len(&self) -> usize
        ensures { result ≡ length self.now }
    {
        self.count
    }

    /// The pair at a place.
    pub(crate) fn at(&self, place: usize) -> Option<&(Text, Value)>
        ensures found { IfSome result (λ p. slice_get self.now place ≡ Some p.now) }
        ensures none { IfNone result (slice_get self.now place ≡ None) }
    {
        pair_among(&self.rows, place)
    }

    /// The value of a key.
    pub(crate) fn get(&self, key: &str) -> Option<&Value>
        ensures found { IfSome result (λ v. find key.now self.now ≡ Some v.now) }
        ensures absent { IfNone result (find key.now self.now ≡ None) }
    {
        if self.rows.is_empty() {
            return None;
        }
        value_of(&self.rows[row_for(&self.rows, key)], key)
    }

    /// Gives a key a value.
    pub(crate) fn put(&mut self, alloc: Global, key: &Text, value: Value) -> Result<(), OutOfMemory>
        ensures ok { OnOk result (self.new ≡ put key.now value self.old) }
        ensures err { OnErr result (self.new ≡ self.old) }
    {
        if self.count == usize::MAX {
            return Err(OutOfMemory);
        }
        let added = put_among(alloc, &mut self.rows, key, value)?;
        self.count += added;
        Ok(())
    }

    /// Takes a key's pair out.
    pub(crate) fn remove(&mut self, key: &str)
        ensures { self.new ≡ without key.now self.old }
    {
        self.count -= remove_among(&mut self.rows, key);
    }

    /// All of them, as a walk finds them that has passed none.
    pub(crate) fn left(&self) -> PairsLeft<'_>
        ensures { result ≡ self.now }
    {
        PairsLeft::of_rows(&self.rows)
    }

    /// The same pairs.
    pub(crate) fn copied(&self, alloc: Global) -> Result<PairRows, OutOfMemory>
        ensures { IfOk result (λ r. r ≡ self.now) }
    {
        Ok(PairRows {
            rows: copied_rows(alloc, &self.rows)?,
            count: self.count,
        })
    }

    /// These pairs in one row.
    pub(crate) fn into_vec(self, alloc: Global) -> Result<Vec<(Text, Value)>, OutOfMemory>
        ensures { IfOk result (λ v. v.items ≡ self) }
    {
        joined_rows(alloc, self.rows)
    }
}

/// Copies of pairs, dealt out to rows.
fn dealt_out(alloc: Global, row: &[(Text, Value)]) -> Result<Vec<Vec<(Text, Value)>>, OutOfMemory>
    ensures same { IfOk result (λ v. joined v.items ≡ row.now) }
    ensures full { IfOk result (λ v. AreFull v.items) }
{
    let mut rows = Vec::new(alloc);
    let mut left = row;
    while !left.is_empty() {
        let (next, behind) = first_part(left);
        rows.push(copied_pairs(alloc, next)?)?;
        left = behind;
    }
    Ok(rows)
}

/// The pairs that go into the next row, and those behind them.
fn first_part(pairs: &[(Text, Value)]) -> (&[(Text, Value)], &[(Text, Value)])
    requires { 0 < length pairs.now }
    ensures whole { pairs.now ≡ result.0.now ++ result.1.now }
    ensures some { 0 < length result.0.now }
{
    if pairs.len() <= HALF {
        (pairs, &[])
    } else {
        pairs.split_at(HALF)
    }
}

/// The pair at a place of all rows together.
fn pair_among(rows: &[Vec<(Text, Value)>], place: usize) -> Option<&(Text, Value)>
    ensures found { IfSome result (λ p. slice_get (joined rows.now) place ≡ Some p.now) }
    ensures none { IfNone result (slice_get (joined rows.now) place ≡ None) }
{
    let mut left = place;
    for row in rows {
        if left < row.len() {
            return Some(&row[left]);
        }
        left -= row.len();
    }
    None
}

/// The row in which a key stands or would go.
fn row_for(rows: &[Vec<(Text, Value)>], key: &str) -> usize
    requires some { 0 < length rows.now }
    requires full { AreFull rows.now }
    requires sorted { T (is_sorted (joined rows.now)) }
    ensures { IsBetween rows.now key.now result (result + 1) }
{
    let mut low = 0;
    let mut high = rows.len();
    while low + 1 < high {
        let middle = low + (high - low) / 2;
        match key_order(rows[middle][0].0.as_str(), key) {
            Ordering::Less => low = middle,
            Ordering::Equal => low = middle,
            Ordering::Greater => high = middle,
        }
    }
    low
}

/// Gives a key a value, and says how many pairs there are more then.
fn put_among(
    alloc: Global,
    rows: &mut Vec<Vec<(Text, Value)>>,
    key: &Text,
    value: Value,
) -> Result<usize, OutOfMemory>
    requires full { AreFull rows.old.items }
    requires sorted { T (is_sorted (joined rows.old.items)) }
    ensures ok { OnOk result (joined rows.new.items ≡ put key.now value (joined rows.old.items)) }
    ensures err { OnErr result (joined rows.new.items ≡ joined rows.old.items) }
    ensures full { AreFull rows.new.items }
    ensures added { IfOk result (λ n. n + length (joined rows.old.items) ≡ length (joined rows.new.items)) }
    ensures one { IfOk result (λ n. n ≤ 1) }
{
    if rows.is_empty() {
        return first_put(alloc, rows, key, value);
    }
    let at = row_with_room(alloc, rows, key)?;
    put_in_row(rows, at, key, value)
}

/// The first pair of all.
fn first_put(
    alloc: Global,
    rows: &mut Vec<Vec<(Text, Value)>>,
    key: &Text,
    value: Value,
) -> Result<usize, OutOfMemory>
    requires { rows.old.items ≡ [] }
    ensures ok { OnOk result (joined rows.new.items ≡ put key.now value []) }
    ensures err { OnErr result (joined rows.new.items ≡ []) }
    ensures full { AreFull rows.new.items }
    ensures one { IfOk result (λ n. n ≡ 1) }
{
    let mut row = Vec::new(alloc);
    row.push((key.clone()?, value))?;
    rows.push(row)?;
    Ok(1)
}

/// The row in which a key stands or would go. One that is full is split in two before.
fn row_with_room(
    alloc: Global,
    rows: &mut Vec<Vec<(Text, Value)>>,
    key: &Text,
) -> Result<usize, OutOfMemory>
    requires some { 0 < length rows.old.items }
    requires full { AreFull rows.old.items }
    requires sorted { T (is_sorted (joined rows.old.items)) }
    ensures same { joined rows.new.items ≡ joined rows.old.items }
    ensures full { AreFull rows.new.items }
    ensures at { IfOk result (λ r. IsBetween rows.new.items key.now r (r + 1)) }
{
    let at = row_for(rows, key.as_str());
    if rows[at].len() < FULL {
        return Ok(at);
    }
    split(alloc, rows, at)?;
    Ok(row_for(rows, key.as_str()))
}

/// Splits a row in two.
fn split(alloc: Global, rows: &mut Vec<Vec<(Text, Value)>>, at: usize) -> Result<(), OutOfMemory>
    requires inside { at < length rows.old.items }
    requires full { AreFull rows.old.items }
    ensures same { joined rows.new.items ≡ joined rows.old.items }
    ensures full { AreFull rows.new.items }
    ensures some { length rows.old.items ≤ length rows.new.items }
{
    if rows[at].len() <= HALF {
        return Ok(());
    }
    let behind = copied_pairs(alloc, &rows[at][HALF..])?;
    rows.insert(at + 1, behind)?;
    rows[at].truncate(HALF);
    Ok(())
}

/// Gives a key a value in its row, and says how many pairs there are more then.
fn put_in_row(
    rows: &mut Vec<Vec<(Text, Value)>>,
    at: usize,
    key: &Text,
    value: Value,
) -> Result<usize, OutOfMemory>
    requires full { AreFull rows.old.items }
    requires sorted { T (is_sorted (joined rows.old.items)) }
    requires at { IsBetween rows.old.items key.now at (at + 1) }
    ensures ok { OnOk result (joined rows.new.items ≡ put key.now value (joined rows.old.items)) }
    ensures err { OnErr result (joined rows.new.items ≡ joined rows.old.items) }
    ensures full { AreFull rows.new.items }
    ensures added { IfOk result (λ n. n + length (joined rows.old.items) ≡ length (joined rows.new.items)) }
    ensures one { IfOk result (λ n. n ≤ 1) }
{
    put_counted(&mut rows[at], key, value)
}

/// Gives a key a value, and says how many pairs there are more then.
fn put_counted(row: &mut Vec<(Text, Value)>, key: &Text, value: Value) -> Result<usize, OutOfMemory>
    requires { T (is_sorted row.old.items) }
    ensures ok { OnOk result (row.new.items ≡ put key.now value row.old.items) }
    ensures err { OnErr result (row.new.items ≡ row.old.items) }
    ensures added { IfOk result (λ n. n + length row.old.items ≡ length row.new.items) }
    ensures one { IfOk result (λ n. n ≤ 1) }
{
    let before = row.len();
    put_pair(row, key, value)?;
    Ok(row.len() - before)
}

/// Takes a key's pair out, and says how many pairs there are less then.
fn remove_among(rows: &mut Vec<Vec<(Text, Value)>>, key: &str) -> usize
    requires full { AreFull rows.old.items }
    requires sorted { T (is_sorted (joined rows.old.items)) }
    ensures same { joined rows.new.items ≡ without key.now (joined rows.old.items) }
    ensures full { AreFull rows.new.items }
    ensures taken { result + length (joined rows.new.items) ≡ length (joined rows.old.items) }
{
    if rows.is_empty() {
        return 0;
    }
    let at = row_for(rows, key);
    remove_in_row(rows, at, key)
}

/// Takes a key's pair out of its row, and says how many pairs there are less then. A row that becomes empty goes.
fn remove_in_row(rows: &mut Vec<Vec<(Text, Value)>>, at: usize, key: &str) -> usize
    requires full { AreFull rows.old.items }
    requires sorted { T (is_sorted (joined rows.old.items)) }
    requires at { IsBetween rows.old.items key.now at (at + 1) }
    ensures same { joined rows.new.items ≡ without key.now (joined rows.old.items) }
    ensures full { AreFull rows.new.items }
    ensures taken { result + length (joined rows.new.items) ≡ length (joined rows.old.items) }
{
    let taken = remove_counted(&mut rows[at], key);
    if rows[at].is_empty() {
        rows.remove(at);
    }
    taken
}

/// Takes a key's pair out, and says how many pairs there are less then.
fn remove_counted(row: &mut Vec<(Text, Value)>, key: &str) -> usize
    requires { T (is_sorted row.old.items) }
    ensures same { row.new.items ≡ without key.now row.old.items }
    ensures taken { result + length row.new.items ≡ length row.old.items }
{
    let before = row.len();
    remove_pair(row, key);
    before - row.len()
}

/// Copies of rows.
fn copied_rows(
    alloc: Global,
    rows: &[Vec<(Text, Value)>],
) -> Result<Vec<Vec<(Text, Value)>>, OutOfMemory>
    ensures same { IfOk result (λ v. joined v.items ≡ joined rows.now) }
    ensures full { AreFull rows.now → IfOk result (λ v. AreFull v.items) }
{
    let mut copy = Vec::with_capacity(alloc, rows.len())?;
    for row in rows {
        copy.push(copied_pairs(alloc, row)?)?;
    }
    Ok(copy)
}

/// The pairs of all rows in one.
fn joined_rows(
    alloc: Global,
    rows: Vec<Vec<(Text, Value)>>,
) -> Result<Vec<(Text, Value)>, OutOfMemory>
    ensures { IfOk result (λ v. v.items ≡ joined rows.items) }
{
    let mut pairs = Vec::new(alloc);
    for row in rows {
        let mut row = row;
        pairs.append(&mut row)?;
    }
    Ok(pairs)
}

/// The same pairs.
fn copied_pairs(alloc: Global, pairs: &[(Text, Value)]) -> Result<Vec<(Text, Value)>, OutOfMemory>
    ensures { IfOk result (λ v. v.items ≡ pairs.now) }
{
    Ok(Vec::from_clones(alloc, pairs)?)
}
