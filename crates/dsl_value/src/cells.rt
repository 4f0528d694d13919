// What changes one cell.
ghost use Rattle.std.specs.Prelude.{◌≡◌, ◌<◌, OnOk, OnErr, IsTrue, length};
ghost use Rattle.dsl_value.specs.Changes.{changed, FitsCell};
ghost use Rattle.dsl_value.specs.Contents.{plain, pushed, is_array, is_dict, values_of, IsInOrder, with_value, with_pair, without_pair};

use crate::{Cell, Change, Value};
use site_base::{OutOfMemory, Text};

/// Changes a cell.
pub(crate) fn change_cell(cell: &mut Cell, change: Change) -> Result<(), OutOfMemory>
    requires fits { FitsCell change (plain cell.old) }
    requires sorted { IsInOrder (plain cell.old) }
    ensures ok { OnOk result (plain cell.new ≡ changed change.entry (plain cell.old)) }
    ensures err { OnErr result (plain cell.new ≡ plain cell.old) }
{
    match change {
        Change::Put(place, value) => {
            put_in(cell, place as usize, value);
            Ok(())
        }
        Change::Push(value) => push_in(cell, value),
        Change::Set(key, value) => set_in(cell, key, value),
        Change::Remove(key) => {
            remove_in(cell, key);
            Ok(())
        }
    }
}

/// Changes one element of an array.
fn put_in(cell: &mut Cell, place: usize, value: Value)
    requires is_array { IsTrue (is_array (plain cell.old)) }
    requires inside { place < length (values_of (plain cell.old)) }
    ensures { plain cell.new ≡ with_value (plain cell.old) place value }
{
    if let Cell::Array(items) = cell {
        items[place] = value;
    }
}

/// Adds a value at an array's end.
fn push_in(cell: &mut Cell, value: Value) -> Result<(), OutOfMemory>
    requires { IsTrue (is_array (plain cell.old)) }
    ensures ok { OnOk result (plain cell.new ≡ pushed (plain cell.old) value) }
    ensures err { OnErr result (plain cell.new ≡ plain cell.old) }
{
    match cell {
        Cell::Array(items) => {
            items.push(value)?;
            Ok(())
        }
        Cell::Dict(_) => Ok(()),
    }
}

/// Gives a key of a dictionary a value.
fn set_in(cell: &mut Cell, key: Text, value: Value) -> Result<(), OutOfMemory>
    requires is_dict { IsTrue (is_dict (plain cell.old)) }
    requires sorted { IsInOrder (plain cell.old) }
    ensures ok { OnOk result (plain cell.new ≡ with_pair (plain cell.old) key value) }
    ensures err { OnErr result (plain cell.new ≡ plain cell.old) }
{
    match cell {
        Cell::Array(_) => Ok(()),
        Cell::Dict(pairs) => pairs.put(&key, value),
    }
}

/// Takes a key's pair out of a dictionary.
fn remove_in(cell: &mut Cell, key: &str)
    requires is_dict { IsTrue (is_dict (plain cell.old)) }
    requires sorted { IsInOrder (plain cell.old) }
    ensures { plain cell.new ≡ without_pair (plain cell.old) key.now }
{
    if let Cell::Dict(pairs) = cell {
        pairs.remove(key);
    }
}
