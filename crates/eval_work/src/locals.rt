// Names with their values.
ghost use Rattle.std.specs.Prelude.{◌≡◌, IfOk, OnOk, OnErr, IfSome, IfNone, Some, None, [], ℕ};
ghost use Rattle.dsl_value.specs.Pairs.{Pairs, find, put, dict_of};
ghost use Rattle.dsl_value.specs.Whole.{Names, NamesAll};

use dsl_value::{PairsLeft, SortedPairs, Value};
use site_base::{OutOfMemory, Text};
use std::alloc::Global;
use std::marker::Model;

/// Names with their values, by rising names: the locals of a frame, what a function captured, constants. A look-up takes as
/// many comparisons as the number of names has binary digits.
#[derive(Drop)]
pub struct Locals {
    pairs: SortedPairs,
}

impl Model for Locals {
    ghost use Rattle.dsl_value.specs.Pairs.{Pairs};

    ghost Value = { Pairs };

    ghost view = { λ l. l.pairs };
}

impl Locals {
    /// No names, which takes no memory.
    pub fn new(alloc: Global) -> Locals
        ensures { result ≡ [] }
    {
        Locals {
            pairs: SortedPairs::new(alloc),
        }
    }

    /// The value of a name.
    pub fn get<'a>(&'a self, name: &str) -> Option<&'a Value>
        ensures found { IfSome result (λ v. find name.now self.now ≡ Some v.now) }
        ensures absent { IfNone result (find name.now self.now ≡ None) }
        ensures named { (cells functions : ℕ) → NamesAll cells functions self.now → IfSome result (λ v. Names cells functions v.now) }
    {
        self.pairs.get(name)
    }

    /// Gives a name a value, in place of the one that it has.
    pub fn put(&mut self, name: &Text, value: Value) -> Result<(), OutOfMemory>
        ensures ok { OnOk result (self.new ≡ put name.now value self.old) }
        ensures named { (cells functions : ℕ) → NamesAll cells functions self.old → Names cells functions value → OnOk result (NamesAll cells functions self.new) }
        ensures err { OnErr result (self.new ≡ self.old) }
    {
        self.pairs.put(name, value)
    }

    /// Gives names their values, one after another.
    pub fn put_all(&mut self, pairs: &[(Text, Value)]) -> Result<(), OutOfMemory>
        ensures ok { OnOk result (self.new ≡ dict_of pairs.now self.old) }
        ensures named { (cells functions : ℕ) → NamesAll cells functions self.old → NamesAll cells functions pairs.now → OnOk result (NamesAll cells functions self.new) }
    {
        self.put_left(&PairsLeft::of_row(pairs))
    }

    /// The same for those that a walk hasn't passed.
    pub fn put_left(&mut self, pairs: &PairsLeft) -> Result<(), OutOfMemory>
        ensures ok { OnOk result (self.new ≡ dict_of pairs.now self.old) }
        ensures named { (cells functions : ℕ) → NamesAll cells functions self.old → NamesAll cells functions pairs.now → OnOk result (NamesAll cells functions self.new) }
    {
        let mut left = pairs.again();
        while let Some(((name, value), behind)) = left.split_first() {
            self.put(name, value.clone()?)?;
            left = behind;
        }
        Ok(())
    }

    /// All of them, as a walk finds them that has passed none.
    pub fn left(&self) -> PairsLeft<'_>
        ensures { result ≡ self.now }
    {
        self.pairs.left()
    }

    /// No names, in the memory that these took.
    pub fn cleared(self) -> Locals
        ensures { result ≡ [] }
    {
        Locals {
            pairs: self.pairs.cleared(),
        }
    }

    /// These names in a row.
    pub fn into_vec(self) -> Result<Vec<(Text, Value)>, OutOfMemory>
        ensures { IfOk result (λ v. v.items ≡ self) }
    {
        self.pairs.into_vec()
    }
}
