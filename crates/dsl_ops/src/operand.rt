// What operators see of a value.
ghost use Rattle.std.specs.Prelude.{◌≡◌, ◌<◌, length};
ghost use Rattle.dsl_value.specs.Whole.{Names};
ghost use Rattle.dsl_value.specs.Contents.{plain as plain_cell};
ghost use Rattle.dsl_ops.specs.Operands.{plain, content_of, operand, Stands, IsInOrder};

use dsl_value::{Cell, PairsLeft, Store, Value};
use site_base::{Num, Text};

/// A value, with what its cell contains.
#[derive(Drop)]
pub(crate) enum Operand<'a> {
    Null,
    Bool(bool),
    Number(Num),
    Str(&'a Text),
    Array(&'a [Value]),
    Dict(PairsLeft<'a>),
    Func(u32),
}

/// What operators see of a value.
pub(crate) fn operand_of<'a>(value: &'a Value, store: &'a Store) -> Operand<'a>
    requires { Names (length store.now.cells) (length store.now.functions) value.now }
    ensures operand { plain result ≡ operand store.now.cells value.now }
    ensures stands { Stands (length store.now.cells) (length store.now.functions) (plain result) }
    ensures sorted { IsInOrder (plain result) }
{
    match value {
        Value::Null => Operand::Null,
        Value::Bool(value) => Operand::Bool(*value),
        Value::Number(number) => Operand::Number(*number),
        Value::Str(text) => Operand::Str(text),
        Value::Ref(cell) => content(store.cell(*cell)),
        Value::Func(func) => Operand::Func(*func),
    }
}

fn content(cell: &Cell) -> Operand<'_>
    ensures { plain result ≡ content_of (plain_cell cell.now) }
{
    match cell {
        Cell::Array(items) => Operand::Array(items),
        Cell::Dict(pairs) => Operand::Dict(pairs.left()),
    }
}
