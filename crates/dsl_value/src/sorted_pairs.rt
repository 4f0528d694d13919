// Pairs of a key and a value, by rising keys.
ghost use Rattle.std.specs.Prelude.{◌≡◌, ◌==◌, [], IfOk, OnOk, OnErr, IfSome, IfNone, T, Some, None, length, slice_get};
ghost use Rattle.dsl_value.specs.Pairs.{find, is_sorted, put, without, dict_of};
ghost use Rattle.dsl_value.specs.PairsKept.{pairs_kept};

use crate::Value;
use crate::pair_rows::PairRows;
use crate::pairs::{put_with_room, remove_pair, sorted_pairs, value_of};
use crate::pairs_left::PairsLeft;
use site_base::{OutOfMemory, Text};
use std::alloc::Global;
use std::marker::Model;

/// How many pairs are moved at most where one is put into a row or taken out of it.
const FAR: usize = 512;

/// Pairs of a key and a value, by rising keys: what a dictionary contains, or names with their values. They lie in a row until a key
/// would be added or taken out far from the row's end; from then on they lie in several rows, so that each such change takes little
/// time.
#[derive(Drop)]
pub struct SortedPairs {
    alloc: Global,
    kept: Kept,
}

/// How pairs are kept.
#[derive(Drop)]
pub(crate) enum Kept {
    Row(Vec<(Text, Value)>),
    Rows(PairRows),
}

impl Model for SortedPairs {
    ghost use Rattle.std.specs.Prelude.{T};
    ghost use Rattle.dsl_value.specs.Pairs.{Pairs, is_sorted};
    ghost use Rattle.dsl_value.specs.PairsKept.{pairs_kept};

    ghost Value = { Pairs };

    ghost view = { λ s. pairs_kept s.kept };

    ghost invariant = { λ s. T (is_sorted (pairs_kept s.kept)) };
}

impl SortedPairs {
    /// No pairs, which takes no memory.
    pub fn new(alloc: Global) -> SortedPairs
        ensures { result ≡ [] }
    {
        SortedPairs {
            alloc,
            kept: Kept::Row(Vec::new(alloc)),
        }
    }

    /// Pairs whose keys rise, which aren't copied.
    pub fn of_rising(alloc: Global, pairs: Vec<(Text, Value)>) -> SortedPairs
        requires { T (is_sorted pairs.items) }
        ensures { result ≡ pairs.items }
    {
        SortedPairs {
            alloc,
            kept: Kept::Row(pairs),
        }
    }

    /// Pairs by their keys. Of equal keys the last has its value kept. Those that rise, as most do, aren't copied.
    #[tactic(auto, using(crate::proofs::Rising::sorted_dict_of))]
    pub(crate) fn of_pairs(
        alloc: Global,
        pairs: Vec<(Text, Value)>,
    ) -> Result<SortedPairs, OutOfMemory>
        ensures { IfOk result (λ s. s ≡ dict_of pairs.items []) }
    {
        Ok(SortedPairs::of_rising(alloc, sorted_pairs(alloc, pairs)?))
    }

    /// The number of pairs.
    pub fn len(&self) -> usize
        ensures { result ≡ length self.now }
    {
        match &self.kept {
            Kept::Row(row) => row.len(),
            Kept::Rows(rows) => rows.len(),
        }
    }

    /// Whether there are none.
    pub fn is_empty(&self) -> bool
        ensures { result ≡ (length self.now == 0) }
    {
        self.len() == 0
    }

    /// The pair at a place.
    pub(crate) fn at(&self, place: usize) -> Option<&(Text, Value)>
        ensures found { IfSome result (λ p. slice_get self.now place ≡ Some p.now) }
        ensures none { IfNone result (slice_get self.now place ≡ None) }
    {
        match &self.kept {
            Kept::Row(row) => row.get(place),
            Kept::Rows(rows) => rows.at(place),
        }
    }

    /// The value of a key.
    pub fn get(&self, key: &str) -> Option<&Value>
        ensures found { IfSome result (λ v. find key.now self.now ≡ Some v.now) }
        ensures absent { IfNone result (find key.now self.now ≡ None) }
    {
        match &self.kept {
            Kept::Row(row) => value_of(row, key),
            Kept::Rows(rows) => rows.get(key),
        }
    }

    /// Gives a key a value, in place of the one that it has.
    pub fn put(&mut self, key: &Text, value: Value) -> Result<(), OutOfMemory>
        ensures ok { OnOk result (self.new ≡ put key.now value self.old) }
        ensures err { OnErr result (self.new ≡ self.old) }
    {
        if self.is_far(key.as_str()) && self.get(key.as_str()).is_none() {
            self.deal_out();
        }
        put_kept(self.alloc, &mut self.kept, key, value)
    }

    /// Takes a key's pair out; nothing changes if the key is absent.
    pub fn remove(&mut self, key: &str)
        ensures { self.new ≡ without key.now self.old }
    {
        if self.is_far(key) && self.get(key).is_some() {
            self.deal_out();
        }
        remove_kept(&mut self.kept, key);
    }

    /// Whether a key lies far from the end of a row.
    fn is_far(&self, key: &str) -> bool {
        match &self.kept {
            Kept::Row(row) => row.len() >= FAR && key < row[row.len() - FAR].0.as_str(),
            Kept::Rows(_) => false,
        }
    }

    /// Deals pairs that lie in a row out to several, if there is memory for that.
    fn deal_out(&mut self)
        ensures { self.new ≡ self.old }
    {
        if let Kept::Row(row) = &self.kept {
            if let Ok(rows) = PairRows::of_row(self.alloc, row) {
                self.kept = Kept::Rows(rows);
            }
        }
    }

    /// All of them, as a walk finds them that has passed none.
    pub fn left(&self) -> PairsLeft<'_>
        ensures { result ≡ self.now }
    {
        match &self.kept {
            Kept::Row(row) => PairsLeft::of_row(row),
            Kept::Rows(rows) => rows.left(),
        }
    }

    /// The same pairs.
    pub fn copied(&self) -> Result<SortedPairs, OutOfMemory>
        ensures { IfOk result (λ s. s ≡ self.now) }
    {
        let kept = match &self.kept {
            Kept::Row(row) => Kept::Row(row.clone()?),
            Kept::Rows(rows) => Kept::Rows(rows.copied(self.alloc)?),
        };
        Ok(SortedPairs {
            alloc: self.alloc,
            kept,
        })
    }

    /// No pairs, in the memory of a row that these took.
    pub fn cleared(self) -> SortedPairs
        ensures { result ≡ [] }
    {
        let SortedPairs { alloc, kept } = self;
        match kept {
            Kept::Row(mut row) => {
                row.clear();
                SortedPairs {
                    alloc,
                    kept: Kept::Row(row),
                }
            }
            Kept::Rows(_) => SortedPairs::new(alloc),
        }
    }

    /// These pairs in a row.
    pub fn into_vec(self) -> Result<Vec<(Text, Value)>, OutOfMemory>
        ensures { IfOk result (λ v. v.items ≡ self) }
    {
        let SortedPairs { alloc, kept } = self;
        match kept {
            Kept::Row(row) => Ok(row),
            Kept::Rows(rows) => rows.into_vec(alloc),
        }
    }
}

/// Gives a key a value where it is kept.
#[tactic(auto, using(crate::proofs::Rowed::sorted_either))]
fn put_kept(alloc: Global, kept: &mut Kept, key: &Text, value: Value) -> Result<(), OutOfMemory>
    requires { T (is_sorted (pairs_kept kept.old)) }
    ensures ok { OnOk result (pairs_kept kept.new ≡ put key.now value (pairs_kept kept.old)) }
    ensures err { OnErr result (pairs_kept kept.new ≡ pairs_kept kept.old) }
    ensures sorted { T (is_sorted (pairs_kept kept.new)) }
{
    match kept {
        Kept::Row(row) => put_with_room(row, key, value),
        Kept::Rows(rows) => rows.put(alloc, key, value),
    }
}

/// Takes a key's pair out from where it is kept.
#[tactic(auto, using(crate::proofs::Rowed::sorted_as_without))]
fn remove_kept(kept: &mut Kept, key: &str)
    requires { T (is_sorted (pairs_kept kept.old)) }
    ensures same { pairs_kept kept.new ≡ without key.now (pairs_kept kept.old) }
    ensures sorted { T (is_sorted (pairs_kept kept.new)) }
{
    match kept {
        Kept::Row(row) => remove_pair(row, key),
        Kept::Rows(rows) => rows.remove(key),
    }
}
