// Values among which an equal one is looked for.
ghost use Rattle.std.specs.Prelude.{◌≡◌, List, ℕ, [], length, IfOk, OnOk};
ghost use Rattle.std.specs.List.{AllByRecursion};
ghost use Rattle.dsl_value.specs.Contents.{PlainCell};
ghost use Rattle.dsl_value.specs.Whole.{Names};
ghost use Rattle.dsl_ops.specs.Seen.{IsSeen, Adds, among, found_in};

use dsl_value::{Store, Value, equal};
use site_base::{Num, OutOfMemory, Row, Text};
use std::alloc::Global;
use std::collections::BTreeSet;

/// Values among which an equal one is looked for: scalars in sets, arrays and dictionaries one by one.
#[derive(Drop)]
pub struct Seen {
    empty: Text,
    has_null: bool,
    has_true: bool,
    has_false: bool,
    numbers: BTreeSet<Num>,
    texts: BTreeSet<Text>,
    functions: BTreeSet<u32>,
    cells: Row<Value>,
}

impl Seen {
    /// No value.
    #[tactic(auto, using(crate::proofs::Among::none_seen))]
    pub fn new(alloc: Global) -> Seen
        ensures { (cells functions : ℕ) (content : List PlainCell) → IsSeen cells functions content [] result }
    {
        Seen {
            empty: Text::new(alloc),
            has_null: false,
            has_true: false,
            has_false: false,
            numbers: BTreeSet::new(alloc),
            texts: BTreeSet::new(alloc),
            functions: BTreeSet::new(alloc),
            cells: Row::new(alloc),
        }
    }

    /// Whether one of the values is equal to a value.
    pub fn contains(&self, value: &Value, store: &Store) -> bool
        requires value { Names (length store.now.cells) (length store.now.functions) value.now }
        requires cells { AllByRecursion (Names (length store.now.cells) (length store.now.functions)) self.now.cells }
        ensures { result ≡ found_in store.now.cells self.now value.now }
    {
        match value {
            Value::Null => {
                (self.numbers.contains(&Num::of(0)) || self.texts.contains(&self.empty))
                    || self.has_null
            }
            Value::Bool(true) => self.has_true,
            Value::Bool(false) => self.has_false,
            Value::Number(number) => {
                self.numbers.contains(number) || (number.thousandths() == 0 && self.has_null)
            }
            Value::Str(text) => self.texts.contains(text) || (text.is_empty() && self.has_null),
            Value::Func(func) => self.functions.contains(func),
            Value::Ref(_) => is_among(self.cells.as_slice(), value, store),
        }
    }

    /// Adds a value.
    pub fn add(&mut self, value: &Value) -> Result<(), OutOfMemory>
        ensures { OnOk result (Adds self.old value.now self.new) }
    {
        match value {
            Value::Number(number) => {
                self.numbers.insert(*number)?;
            }
            Value::Str(text) => {
                self.texts.insert(text.clone()?)?;
            }
            Value::Func(func) => {
                self.functions.insert(*func)?;
            }
            Value::Null => self.has_null = true,
            Value::Bool(true) => self.has_true = true,
            Value::Bool(false) => self.has_false = true,
            Value::Ref(cell) => self.cells.push(Value::Ref(*cell))?,
        }
        Ok(())
    }
}

/// Values, so that an equal one is looked for among them.
#[tactic(auto, using(crate::proofs::Among::adds_seen))]
pub fn seen_of(alloc: Global, items: &[Value], store: &Store) -> Result<Seen, OutOfMemory>
    requires { AllByRecursion (Names (length store.now.cells) (length store.now.functions)) items.now }
    ensures { IfOk result (IsSeen (length store.now.cells) (length store.now.functions) store.now.cells items.now) }
{
    let mut seen = Seen::new(alloc);
    for item in items {
        seen.add(item)?;
    }
    Ok(seen)
}

/// Whether one of these values is equal to a value.
fn is_among(items: &[Value], value: &Value, store: &Store) -> bool
    requires items { AllByRecursion (Names (length store.now.cells) (length store.now.functions)) items.now }
    requires value { Names (length store.now.cells) (length store.now.functions) value.now }
    ensures { result ≡ among store.now.cells items.now value.now }
{
    for item in items {
        if equal(item, value, store) {
            return true;
        }
    }
    false
}
