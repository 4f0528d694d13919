// What operators and calls of the library make, before a store has it.
ghost use Rattle.std.specs.Prelude.{◌≡◌, ◌<◌, ◌≤◌, ◌+◌, length, IfOk, IfSome, IfNone, OnOk, OnErr};
ghost use Rattle.dsl_value.specs.Grows.{Grows};
ghost use Rattle.dsl_value.specs.Outcomes.{value_of, store_of, units_of, text_bytes, bytes_of, StandsMade};
ghost use Rattle.dsl_value.specs.Whole.{Names};

use crate::{Store, Value};
use site_base::{OutOfMemory, Row, Text};

/// What an operator or a call of the library comes to, before it is put into a store.
#[derive(Drop)]
pub enum Made {
    /// A value that was there, or that takes no memory.
    Value(Value),
    /// A text that was made.
    Text(Text),
    /// A new array.
    Array(Row<Value>),
    /// A new array of texts that were made with it.
    Texts(Row<Value>),
    /// A new dictionary, whose keys rise.
    Dict(Row<(Text, Value)>),
}

impl Made {
    /// The units that it costs, if these are so many at most; else `None`.
    pub fn units_within(&self, most: u64) -> Option<u64>
        ensures within { IfSome result (λ n. (n ≡ units_of self.now) × (n ≤ most)) }
        ensures over { IfNone result (most < units_of self.now) }
    {
        match self {
            Made::Value(_) => Some(0),
            Made::Text(text) => units_with(0, text.len(), most),
            Made::Array(items) => cell_units(items.len(), most),
            Made::Texts(items) => texts_units(items.as_slice(), most),
            Made::Dict(pairs) => cell_units(pairs.len(), most),
        }
    }

    /// The value. A new array or dictionary goes into the store.
    #[tactic(auto, using(crate::proofs::Growing::grows_same))]
    pub fn put_in(self, store: &mut Store) -> Result<Value, OutOfMemory>
        requires stands { StandsMade (length store.old.cells) (length store.old.functions) self }
        ensures value { IfOk result (λ v. v ≡ value_of (length store.old.cells) self) }
        ensures names { IfOk result (Names (length store.new.cells) (length store.new.functions)) }
        ensures ok { OnOk result (store.new ≡ store_of store.old self) }
        ensures grows { OnOk result (Grows 1 store.old store.new) }
        ensures err { OnErr result (store.new ≡ store.old) }
    {
        match self {
            Made::Value(value) => Ok(value),
            Made::Text(text) => Ok(Value::Str(text)),
            Made::Array(items) => store.array(items),
            Made::Texts(items) => store.array(items),
            Made::Dict(pairs) => store.sorted_dict(pairs),
        }
    }
}

/// The units so far with more of them, if these are so many at most.
pub(crate) fn units_with(units: u64, more: usize, most: u64) -> Option<u64>
    requires { units ≤ most }
    ensures within { IfSome result (λ n. (n ≡ units + more) × (n ≤ most)) }
    ensures over { IfNone result (most < units + more) }
{
    let more = more as u64;
    if more > most - units {
        return None;
    }
    Some(units + more)
}

/// The units of a cell with so many elements or pairs, if these are so many at most.
fn cell_units(count: usize, most: u64) -> Option<u64>
    ensures within { IfSome result (λ n. (n ≡ 1 + count) × (n ≤ most)) }
    ensures over { IfNone result (most < 1 + count) }
{
    let count = count as u64;
    if count >= most {
        return None;
    }
    Some(1 + count)
}

/// The units of an array of texts, if these are so many at most.
fn texts_units(items: &[Value], most: u64) -> Option<u64>
    ensures within { IfSome result (λ n. (n ≡ (1 + length items.now) + bytes_of items.now) × (n ≤ most)) }
    ensures over { IfNone result (most < (1 + length items.now) + bytes_of items.now) }
{
    let mut units = cell_units(items.len(), most)?;
    for item in items {
        units = units_with(units, bytes_in(item), most)?;
    }
    Some(units)
}

/// The bytes of a text.
fn bytes_in(value: &Value) -> usize
    ensures { result ≡ text_bytes value.now }
{
    match value {
        Value::Str(text) => text.len(),
        _ => 0,
    }
}
