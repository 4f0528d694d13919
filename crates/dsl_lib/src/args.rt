// Arguments: how many there are, and of which type.
ghost use Rattle.std.specs.Prelude.{◌≡◌, ◌<◌, nat_lt, Some, None, length, IfOk, MatchResult};
ghost use Rattle.std.specs.List.{AllByRecursion};
ghost use Rattle.dsl_value.specs.Contents.{cell_at, pairs_of};
ghost use Rattle.dsl_value.specs.Whole.{Names, NamesAll};
ghost use Rattle.dsl_lib.specs.Arguments.{one as one_of, two as two_of, three as three_of, text_in, number_in, items_in, pairs_in, array_in, dict_in};

use crate::LibFault;
use dsl_value::{Cell, SortedPairs, Store, Value};
use site_base::{Num, Text};

/// The one argument.
pub(crate) fn one(args: &[Value]) -> Result<&Value, LibFault>
    ensures { MatchResult result (λ a. one_of args.now ≡ Some a.now) (λ e. (one_of args.now ≡ None) × (e ≡ LibFault.Arity)) }
{
    match args {
        [a] => Ok(a),
        _ => Err(LibFault::Arity),
    }
}

/// The two arguments.
pub(crate) fn two(args: &[Value]) -> Result<(&Value, &Value), LibFault>
    ensures { MatchResult result (λ p. two_of args.now ≡ Some (p.0.now, p.1.now)) (λ e. (two_of args.now ≡ None) × (e ≡ LibFault.Arity)) }
{
    match args {
        [a, b] => Ok((a, b)),
        _ => Err(LibFault::Arity),
    }
}

/// The three arguments.
pub(crate) fn three(args: &[Value]) -> Result<(&Value, &Value, &Value), LibFault>
    ensures { MatchResult result (λ p. three_of args.now ≡ Some (p.0.now, p.1.now, p.2.now)) (λ e. (three_of args.now ≡ None) × (e ≡ LibFault.Arity)) }
{
    match args {
        [a, b, c] => Ok((a, b, c)),
        _ => Err(LibFault::Arity),
    }
}

/// The text that a value is.
pub(crate) fn text(value: &Value) -> Result<&str, LibFault>
    ensures { MatchResult result (λ t. text_in value.now ≡ Some t.now) (λ e. (text_in value.now ≡ None) × (e ≡ LibFault.WrongType)) }
{
    match value {
        Value::Str(text) => Ok(text.as_str()),
        _ => Err(LibFault::WrongType),
    }
}

/// The text that a value is, as the value holds it.
pub(crate) fn held_text(value: &Value) -> Result<&Text, LibFault>
    ensures { MatchResult result (λ t. text_in value.now ≡ Some t.now) (λ e. (text_in value.now ≡ None) × (e ≡ LibFault.WrongType)) }
{
    match value {
        Value::Str(text) => Ok(text),
        _ => Err(LibFault::WrongType),
    }
}

/// The number that a value is.
pub(crate) fn number(value: &Value) -> Result<Num, LibFault>
    ensures { MatchResult result (λ n. number_in value.now ≡ Some n) (λ e. (number_in value.now ≡ None) × (e ≡ LibFault.WrongType)) }
{
    match value {
        Value::Number(number) => Ok(*number),
        _ => Err(LibFault::WrongType),
    }
}

/// The elements of the array that a value is.
pub(crate) fn items<'a>(value: &Value, store: &'a Store) -> Result<&'a [Value], LibFault>
    requires { Names (length store.now.cells) (length store.now.functions) value.now }
    ensures items { MatchResult result (λ vs. items_in store.now.cells value.now ≡ Some vs.now) (λ e. (items_in store.now.cells value.now ≡ None) × (e ≡ LibFault.WrongType)) }
    ensures stands { IfOk result (λ vs. AllByRecursion (Names (length store.now.cells) (length store.now.functions)) vs.now) }
{
    match value {
        Value::Ref(cell) => match store.cell(*cell) {
            Cell::Array(items) => Ok(items.as_slice()),
            Cell::Dict(_) => Err(LibFault::WrongType),
        },
        _ => Err(LibFault::WrongType),
    }
}

/// The pairs of the dictionary that a value is.
pub(crate) fn pairs<'a>(value: &Value, store: &'a Store) -> Result<&'a SortedPairs, LibFault>
    requires { Names (length store.now.cells) (length store.now.functions) value.now }
    ensures pairs { MatchResult result (λ ps. pairs_in store.now.cells value.now ≡ Some ps.now) (λ e. (pairs_in store.now.cells value.now ≡ None) × (e ≡ LibFault.WrongType)) }
    ensures stands { IfOk result (λ ps. NamesAll (length store.now.cells) (length store.now.functions) ps.now) }
{
    match value {
        Value::Ref(cell) => match store.cell(*cell) {
            Cell::Array(_) => Err(LibFault::WrongType),
            Cell::Dict(pairs) => Ok(pairs),
        },
        _ => Err(LibFault::WrongType),
    }
}

/// The cell of the array that a value is.
pub(crate) fn array(value: &Value, store: &Store) -> Result<u32, LibFault>
    requires { Names (length store.now.cells) (length store.now.functions) value.now }
    ensures { MatchResult result (λ k. (k < length store.now.cells) × (array_in store.now.cells value.now ≡ Some k)) (λ e. (array_in store.now.cells value.now ≡ None) × (e ≡ LibFault.WrongType)) }
{
    match value {
        Value::Ref(cell) => match store.cell(*cell) {
            Cell::Array(_) => Ok(*cell),
            Cell::Dict(_) => Err(LibFault::WrongType),
        },
        _ => Err(LibFault::WrongType),
    }
}

/// The cell of the dictionary that a value is.
pub(crate) fn dict(value: &Value, store: &Store) -> Result<u32, LibFault>
    requires { Names (length store.now.cells) (length store.now.functions) value.now }
    ensures dict { MatchResult result (λ k. (k < length store.now.cells) × (dict_in store.now.cells value.now ≡ Some k)) (λ e. (dict_in store.now.cells value.now ≡ None) × (e ≡ LibFault.WrongType)) }
    ensures stands { IfOk result (λ k. NamesAll (length store.now.cells) (length store.now.functions) (pairs_of (cell_at store.now.cells k))) }
{
    match value {
        Value::Ref(cell) => match store.cell(*cell) {
            Cell::Array(_) => Err(LibFault::WrongType),
            Cell::Dict(_) => Ok(*cell),
        },
        _ => Err(LibFault::WrongType),
    }
}

/// Whether a cell lies below the base, if nothing is changed.
pub(crate) fn is_frozen(cell: u32, store: &Store) -> bool
    ensures { result ≡ nat_lt cell store.now.base }
{
    cell < store.base()
}
