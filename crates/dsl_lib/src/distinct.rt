// Values of which no two are equal.
ghost use Rattle.std.specs.Prelude.{◌≡◌, List, [], length, OnOk};
ghost use Rattle.std.specs.List.{AllByRecursion};
ghost use Rattle.dsl_value.specs.Contents.{Contents};
ghost use Rattle.dsl_value.specs.Whole.{Names};
ghost use Rattle.dsl_lib.specs.Distinct.{Finds};
ghost use Rattle.dsl_lib.specs.Sets.{with_distinct, distinct as distinct_of};

use crate::answers::copy;
use dsl_ops::Seen;
use dsl_value::{Store, Value};
use site_base::{OutOfMemory, Row};
use std::alloc::Global;

/// Values of which no two are equal, in the order in which each first came.
#[derive(Drop)]
pub(crate) struct Distinct {
    seen: Seen,
    items: Row<Value>,
}

impl Distinct {
    /// No value.
    pub(crate) fn new(alloc: Global) -> Distinct
        ensures items { result.items ≡ [] }
        ensures finds { (s : Contents) → Finds s result }
    {
        Distinct {
            seen: Seen::new(alloc),
            items: Row::new(alloc),
        }
    }

    /// Takes a value, unless one that was taken is equal to it.
    #[tactic(auto, using(crate::proofs::Taken::cells_stand, crate::proofs::Taken::finds_equal))]
    fn take(&mut self, value: &Value, store: &Store) -> Result<(), OutOfMemory>
        requires value { Names (length store.now.cells) (length store.now.functions) value.now }
        requires finds { Finds store.now self.old }
        ensures items { OnOk result (self.new.items ≡ with_distinct store.now.cells self.old.items value.now) }
        ensures finds { OnOk result (Finds store.now self.new) }
    {
        if self.seen.contains(value, store) {
            return Ok(());
        }
        self.seen.add(value)?;
        self.items.push(copy(value)?)?;
        Ok(())
    }

    /// Takes the distinct ones of some values.
    pub(crate) fn take_all(&mut self, values: &[Value], store: &Store) -> Result<(), OutOfMemory>
        requires values { AllByRecursion (Names (length store.now.cells) (length store.now.functions)) values.now }
        requires finds { Finds store.now self.old }
        ensures items { OnOk result (self.new.items ≡ distinct_of store.now.cells self.old.items values.now) }
        ensures finds { OnOk result (Finds store.now self.new) }
    {
        for value in values {
            self.take(value, store)?;
        }
        Ok(())
    }

    /// The values that were taken.
    pub(crate) fn into_items(self) -> Row<Value>
        ensures { result ≡ self.items }
    {
        self.items
    }
}
