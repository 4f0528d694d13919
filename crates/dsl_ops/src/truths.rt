// The truth of a value.
ghost use Rattle.std.specs.Prelude.{◌≡◌, length};
ghost use Rattle.dsl_value.specs.Whole.{Names};
ghost use Rattle.dsl_value.specs.Contents.{plain};
ghost use Rattle.dsl_ops.specs.Operands.{content_of, operand, is_true};

use dsl_value::{Cell, Store, Value};

/// Whether a value counts as true. False are null, `false`, 0, the empty string, an empty array and an
/// empty dictionary. It takes no memory.
pub fn truth(value: &Value, store: &Store) -> bool
    requires { Names (length store.now.cells) (length store.now.functions) value.now }
    ensures { result ≡ is_true (operand store.now.cells value.now) }
{
    match value {
        Value::Null => false,
        Value::Bool(value) => *value,
        Value::Number(number) => number.thousandths() != 0,
        Value::Str(text) => !text.is_empty(),
        Value::Ref(cell) => has_content(store.cell(*cell)),
        Value::Func(_) => true,
    }
}

/// Whether an array has elements, or a dictionary pairs.
fn has_content(cell: &Cell) -> bool
    ensures { result ≡ is_true (content_of (plain cell.now)) }
{
    match cell {
        Cell::Array(items) => !items.is_empty(),
        Cell::Dict(pairs) => !pairs.is_empty(),
    }
}
