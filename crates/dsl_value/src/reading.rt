// What is read of one cell of a store.
ghost use Rattle.std.specs.Prelude.{◌≡◌, ◌<◌, IfNone, IfOk, IfSome, IsTrue, None, Some, length};
ghost use Rattle.dsl_value.specs.Contents.{cell_at, is_dict, pairs_of, plain, IsInOrder};
ghost use Rattle.dsl_value.specs.Pairs.{find};
ghost use Rattle.dsl_value.specs.Whole.{Names, Stands};

use crate::layer::copy_cell;
use crate::{Cell, Store, Value};
use site_base::OutOfMemory;

impl Store {
    /// A copy of a cell, which stays as it is when the store changes.
    pub fn snapshot(&self, cell: u32) -> Result<Cell, OutOfMemory>
        requires { cell < length self.now.cells }
        ensures cell { IfOk result (λ c. plain c ≡ cell_at self.now.cells cell) }
        ensures stands { IfOk result (λ c. Stands (length self.now.cells) (length self.now.functions) (plain c)) }
    {
        copy_cell(self.cell(cell))
    }

    /// The value of a dictionary's key; `None` if the key is absent.
    #[tactic(auto, using(crate::proofs::Found::cell_stands))]
    pub fn get(&self, cell: u32, key: &str) -> Option<&Value>
        requires inside { cell < length self.now.cells }
        requires is_dict { IsTrue (is_dict (cell_at self.now.cells cell)) }
        ensures found { IfSome result (λ v. find key.now (pairs_of (cell_at self.now.cells cell)) ≡ Some v.now) }
        ensures absent { IfNone result (find key.now (pairs_of (cell_at self.now.cells cell)) ≡ None) }
        ensures stands { IfSome result (λ v. Names (length self.now.cells) (length self.now.functions) v.now) }
    {
        value_in(self.cell(cell), key)
    }
}

/// The value of a key in a dictionary's cell.
fn value_in<'a>(cell: &'a Cell, key: &str) -> Option<&'a Value>
    requires is_dict { IsTrue (is_dict (plain cell.now)) }
    requires sorted { IsInOrder (plain cell.now) }
    ensures found { IfSome result (λ v. find key.now (pairs_of (plain cell.now)) ≡ Some v.now) }
    ensures absent { IfNone result (find key.now (pairs_of (plain cell.now)) ≡ None) }
{
    match cell {
        Cell::Array(_) => None,
        Cell::Dict(pairs) => pairs.get(key),
    }
}
