// What changes one cell of a store.
ghost use Rattle.std.specs.Prelude.{◌≡◌, ◌<◌, ◌↔◌, IfErr, IsErrOf, IsTrue, OnErr, OnOk, length};
ghost use Rattle.dsl_value.specs.Contents.{cell_at, is_array, is_dict, pushed, values_of, with_cell, with_cells, with_pair, with_value, without_pair};
ghost use Rattle.dsl_value.specs.Faults.{Concerns};
ghost use Rattle.dsl_value.specs.Grows.{Grows};
ghost use Rattle.dsl_value.specs.Whole.{Names};

use crate::{Change, SetFault, Store, Value};
use site_base::Text;

impl Store {
    /// Gives a dictionary's key a value. `Frozen` exactly if the cell is frozen.
    pub fn set(&mut self, cell: u32, key: Text, value: Value) -> Result<(), SetFault>
        requires inside { cell < length self.old.cells }
        requires is_dict { IsTrue (is_dict (cell_at self.old.cells cell)) }
        requires stands { Names (length self.old.cells) (length self.old.functions) value }
        ensures frozen { IsErrOf result (SetFault.Frozen cell) ↔ (cell < self.old.base) }
        ensures fault { IfErr result (Concerns cell) }
        ensures ok { OnOk result (self.new ≡ with_cells self.old (with_cell self.old.cells cell (with_pair (cell_at self.old.cells cell) key value))) }
        ensures grows { OnOk result (Grows 0 self.old self.new) }
        ensures err { OnErr result (self.new ≡ self.old) }
    {
        self.change(cell, Change::Set(key, value))
    }

    /// Changes one element of an array. `Frozen` exactly if the cell is frozen.
    pub fn put(&mut self, cell: u32, place: u32, value: Value) -> Result<(), SetFault>
        requires inside { cell < length self.old.cells }
        requires is_array { IsTrue (is_array (cell_at self.old.cells cell)) }
        requires place { place < length (values_of (cell_at self.old.cells cell)) }
        requires stands { Names (length self.old.cells) (length self.old.functions) value }
        ensures frozen { IsErrOf result (SetFault.Frozen cell) ↔ (cell < self.old.base) }
        ensures fault { IfErr result (Concerns cell) }
        ensures ok { OnOk result (self.new ≡ with_cells self.old (with_cell self.old.cells cell (with_value (cell_at self.old.cells cell) place value))) }
        ensures grows { OnOk result (Grows 0 self.old self.new) }
        ensures err { OnErr result (self.new ≡ self.old) }
    {
        self.change(cell, Change::Put(place, value))
    }

    /// Adds a value at an array's end. `Frozen` exactly if the cell is frozen.
    pub fn push(&mut self, cell: u32, value: Value) -> Result<(), SetFault>
        requires inside { cell < length self.old.cells }
        requires is_array { IsTrue (is_array (cell_at self.old.cells cell)) }
        requires stands { Names (length self.old.cells) (length self.old.functions) value }
        ensures frozen { IsErrOf result (SetFault.Frozen cell) ↔ (cell < self.old.base) }
        ensures fault { IfErr result (Concerns cell) }
        ensures ok { OnOk result (self.new ≡ with_cells self.old (with_cell self.old.cells cell (pushed (cell_at self.old.cells cell) value))) }
        ensures grows { OnOk result (Grows 0 self.old self.new) }
        ensures err { OnErr result (self.new ≡ self.old) }
    {
        self.change(cell, Change::Push(value))
    }

    /// Takes a key's pair out of a dictionary; nothing changes if the key is absent. `Frozen` exactly
    /// where the cell is frozen.
    pub fn remove(&mut self, cell: u32, key: &str) -> Result<(), SetFault>
        requires inside { cell < length self.old.cells }
        requires is_dict { IsTrue (is_dict (cell_at self.old.cells cell)) }
        ensures frozen { IsErrOf result (SetFault.Frozen cell) ↔ (cell < self.old.base) }
        ensures fault { IfErr result (Concerns cell) }
        ensures ok { OnOk result (self.new ≡ with_cells self.old (with_cell self.old.cells cell (without_pair (cell_at self.old.cells cell) key.now))) }
        ensures grows { OnOk result (Grows 0 self.old self.new) }
        ensures err { OnErr result (self.new ≡ self.old) }
    {
        self.change(cell, Change::Remove(key))
    }
}
