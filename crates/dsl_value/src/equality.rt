// When values are equal.
ghost use Rattle.std.specs.Prelude.{◌≡◌, ◌-◌, ◌<◌, ◌≤◌, length};
ghost use Rattle.std.specs.List.{All};
ghost use Rattle.dsl_value.specs.Contents.{plain};
ghost use Rattle.dsl_value.specs.Equality.{scalars_equal, each_equal, each_pair_equal, cells_equal, refs_equal, equal_within};
ghost use Rattle.dsl_value.specs.Known.{IsKnown};
ghost use Rattle.dsl_value.specs.Whole.{Names, NamesAll, Stands};

use crate::known::Known;
use crate::{Cell, PairsLeft, Store, Value};

/// How deep arrays and dictionaries are compared. Those that lie deeper are unequal.
const LEVELS: u32 = 100;

/// Whether two values are equal. Null equals null, 0 and the empty text. Numbers, texts and booleans
/// are compared by value, arrays and dictionaries element by element to a hundred levels of nesting,
/// and functions by identity; values of two types are unequal. Cells that are met again beside each other are
/// compared once, if there is memory to keep them in mind.
pub fn equal(left: &Value, right: &Value, store: &Store) -> bool
    requires left { Names (length store.now.cells) (length store.now.functions) left.now }
    requires right { Names (length store.now.cells) (length store.now.functions) right.now }
    ensures { result ≡ equal_within 100 store.now.cells left.now right.now }
{
    values(LEVELS, left, right, store, &mut Known::new(store.alloc()))
}

#[cycle(equal)]
fn values(levels: u32, left: &Value, right: &Value, store: &Store, known: &mut Known) -> bool
    requires left { Names (length store.now.cells) (length store.now.functions) left.now }
    requires right { Names (length store.now.cells) (length store.now.functions) right.now }
    requires levels { levels ≤ 100 }
    requires known { IsKnown store.now.cells known.old }
    ensures equal { result ≡ equal_within levels store.now.cells left.now right.now }
    ensures known { IsKnown store.now.cells known.new }
{
    if levels == 0 {
        return scalars(left, right);
    }
    inside(levels - 1, left, right, store, known)
}

#[cycle(equal)]
fn inside(levels: u32, left: &Value, right: &Value, store: &Store, known: &mut Known) -> bool
    requires left { Names (length store.now.cells) (length store.now.functions) left.now }
    requires right { Names (length store.now.cells) (length store.now.functions) right.now }
    requires levels { levels < 100 }
    requires known { IsKnown store.now.cells known.old }
    ensures equal { result ≡ refs_equal (equal_within levels store.now.cells) store.now.cells left.now right.now }
    ensures known { IsKnown store.now.cells known.new }
{
    match (left, right) {
        (Value::Ref(left), Value::Ref(right)) => {
            if known.contains(levels, *left, *right) {
                return true;
            }
            if !cells(levels, store.cell(*left), store.cell(*right), store, known) {
                return false;
            }
            known.add(levels, *left, *right);
            true
        }
        _ => scalars(left, right),
    }
}

#[cycle(equal)]
fn cells(levels: u32, left: &Cell, right: &Cell, store: &Store, known: &mut Known) -> bool
    requires left { Stands (length store.now.cells) (length store.now.functions) (plain left.now) }
    requires right { Stands (length store.now.cells) (length store.now.functions) (plain right.now) }
    requires levels { levels < 100 }
    requires known { IsKnown store.now.cells known.old }
    ensures equal { result ≡ cells_equal (equal_within levels store.now.cells) (plain left.now) (plain right.now) }
    ensures known { IsKnown store.now.cells known.new }
{
    match (left, right) {
        (Cell::Array(left), Cell::Array(right)) => {
            left.len() == right.len() && items(levels, left, right, store, known)
        }
        (Cell::Dict(left), Cell::Dict(right)) => {
            left.len() == right.len() && pairs(levels, &left.left(), &right.left(), store, known)
        }
        _ => false,
    }
}

#[cycle(equal)]
fn items(levels: u32, left: &[Value], right: &[Value], store: &Store, known: &mut Known) -> bool
    requires left { All (Names (length store.now.cells) (length store.now.functions)) left.now }
    requires right { All (Names (length store.now.cells) (length store.now.functions)) right.now }
    requires length { length left.now ≡ length right.now }
    requires levels { levels < 100 }
    requires known { IsKnown store.now.cells known.old }
    ensures equal { result ≡ each_equal (equal_within levels store.now.cells) left.now right.now }
    ensures known { IsKnown store.now.cells known.new }
{
    for i in 0..left.len() {
        if !values(levels, &left[i], &right[i], store, known) {
            return false;
        }
    }
    true
}

#[cycle(equal)]
fn pairs(levels: u32, left: &PairsLeft, right: &PairsLeft, store: &Store, known: &mut Known) -> bool
    requires left { NamesAll (length store.now.cells) (length store.now.functions) left.now }
    requires right { NamesAll (length store.now.cells) (length store.now.functions) right.now }
    requires levels { levels < 100 }
    requires known { IsKnown store.now.cells known.old }
    ensures equal { result ≡ each_pair_equal (equal_within levels store.now.cells) left.now right.now }
    ensures known { IsKnown store.now.cells known.new }
{
    let mut left = left.again();
    let mut right = right.again();
    while let Some((one, behind)) = left.split_first() {
        let Some((other, beyond)) = right.split_first() else {
            return true;
        };
        if one.0 != other.0 || !values(levels, &one.1, &other.1, store, known) {
            return false;
        }
        left = behind;
        right = beyond;
    }
    true
}

/// Whether two values are equal that aren't both arrays or dictionaries.
fn scalars(left: &Value, right: &Value) -> bool
    ensures { result ≡ scalars_equal left.now right.now }
{
    match (left, right) {
        (Value::Null, Value::Null) => true,
        (Value::Null, Value::Number(number)) | (Value::Number(number), Value::Null) => {
            number.thousandths() == 0
        }
        (Value::Null, Value::Str(text)) | (Value::Str(text), Value::Null) => text.is_empty(),
        (Value::Bool(left), Value::Bool(right)) => *left == *right,
        (Value::Number(left), Value::Number(right)) => left.thousandths() == right.thousandths(),
        (Value::Str(left), Value::Str(right)) => *left == *right,
        (Value::Func(left), Value::Func(right)) => *left == *right,
        _ => false,
    }
}
