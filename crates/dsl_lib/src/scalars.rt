// The functions of single values.
ghost use Rattle.std.specs.Prelude.{◌≡◌, ◌<◌, ◌*◌, ◌++◌, List, ℕ, pos, Some, None, length, MatchResult, IfSome, IfOk};
ghost use Rattle.std.specs.List.{AllByRecursion};
ghost use Rattle.dsl_value.specs.Whole.{Names};
ghost use Rattle.dsl_lib.specs.Answers.{Returns, IsWrong};
ghost use Rattle.dsl_lib.specs.Scalars.{whole as whole_value, size_of, len as len_answer, scalar_text, string_text, string as string_answer, unsigned_read, signed_read, number_of as number_in, number as number_answer, bool as bool_answer};

use crate::LibFault;
use crate::args::one;
use dsl_ops::truth;
use dsl_value::{Cell, Store, Value};
use site_base::{Num, Text};
use std::alloc::Global;

/// `len(value)`: bytes, elements or pairs.
pub(crate) fn len(args: &[Value], store: &Store) -> Result<Value, LibFault>
    requires { AllByRecursion (Names (length store.now.cells) (length store.now.functions)) args.now }
    ensures answer { Returns (len_answer store.now args.now) result }
    ensures stands { IfOk result (Names (length store.now.cells) (length store.now.functions)) }
{
    whole(size(one(args)?, store)?)
}

/// How many bytes, elements or pairs a value has.
fn size(value: &Value, store: &Store) -> Result<usize, LibFault>
    requires { Names (length store.now.cells) (length store.now.functions) value.now }
    ensures { MatchResult result (λ n. size_of store.now.cells value.now ≡ Some n) (λ e. (size_of store.now.cells value.now ≡ None) × (e ≡ LibFault.WrongType)) }
{
    match value {
        Value::Null => Ok(0),
        Value::Str(text) => Ok(text.len()),
        Value::Ref(cell) => match store.cell(*cell) {
            Cell::Array(items) => Ok(items.len()),
            Cell::Dict(pairs) => Ok(pairs.len()),
        },
        _ => Err(LibFault::WrongType),
    }
}

/// A count as a number. One of which no number is has no memory that holds what is counted.
pub(crate) fn whole(count: usize) -> Result<Value, LibFault>
    ensures { MatchResult result (λ v. v ≡ whole_value count) (λ e. e ≡ LibFault.OutOfMemory) }
{
    match thousandths(count) {
        Some(thousandths) => Ok(Value::Number(Num::of(thousandths))),
        None => Err(LibFault::OutOfMemory),
    }
}

fn thousandths(count: usize) -> Option<i64>
    ensures { IfSome result (λ n. n ≡ pos (1000 * count)) }
{
    let thousandths = count.checked_mul(1000)?;
    i64::try_from(thousandths).ok()
}

/// `string(value)`: the text of a scalar; null has the empty one.
pub(crate) fn string(alloc: Global, args: &[Value]) -> Result<Value, LibFault>
    ensures answer { Returns (string_answer args.now) result }
    ensures stands { IfOk result (λ v. (cells functions : ℕ) → Names cells functions v) }
{
    let value = one(args)?;
    let mut text = Text::new(alloc);
    push_string(&mut text, value)?;
    Ok(Value::Str(text))
}

/// Adds the text of a scalar or of null at the end of a text.
fn push_string(out: &mut Text, value: &Value) -> Result<(), LibFault>
    ensures { MatchResult result (λ _. (t : List ℕ) × (string_text value.now ≡ Some t) × (out.new ≡ out.old ++ t)) (IsWrong (string_text value.now)) }
{
    match value {
        Value::Null => Ok(()),
        _ => push_scalar(out, value),
    }
}

/// Adds the text of a scalar at the end of a text.
pub(crate) fn push_scalar(out: &mut Text, value: &Value) -> Result<(), LibFault>
    ensures { MatchResult result (λ _. (t : List ℕ) × (scalar_text value.now ≡ Some t) × (out.new ≡ out.old ++ t)) (IsWrong (scalar_text value.now)) }
{
    match value {
        Value::Str(text) => out.push_str(text.as_str())?,
        Value::Number(number) => number.push_to(out)?,
        Value::Bool(true) => out.push_str("true")?,
        Value::Bool(false) => out.push_str("false")?,
        _ => return Err(LibFault::WrongType),
    }
    Ok(())
}

/// `number(value)`: a number, a boolean as 0 or 1, or what a text spells.
pub(crate) fn number(args: &[Value]) -> Result<Value, LibFault>
    ensures answer { Returns (number_answer args.now) result }
    ensures stands { IfOk result (λ v. (cells functions : ℕ) → Names cells functions v) }
{
    match number_of(one(args)?) {
        Some(number) => Ok(Value::Number(number)),
        None => Err(LibFault::WrongType),
    }
}

fn number_of(value: &Value) -> Option<Num>
    ensures { result ≡ number_in value.now }
{
    match value {
        Value::Number(number) => Some(*number),
        Value::Bool(true) => Some(Num::of(1000)),
        Value::Bool(false) => Some(Num::of(0)),
        Value::Str(text) => read_signed(text.as_str()),
        _ => None,
    }
}

/// The number that a text spells: one that `Num::read` takes without a unit, with a `-` before it or none.
fn read_signed(text: &str) -> Option<Num>
    ensures { result ≡ signed_read text.now }
{
    match text.strip_prefix('-') {
        Some(rest) => Num::of(0).minus(&read_unsigned(rest)?),
        None => read_unsigned(text),
    }
}

/// The number that a text without a unit spells, which ends in a digit.
fn read_unsigned(text: &str) -> Option<Num>
    ensures { result ≡ unsigned_read text.now }
{
    match text.as_bytes().last() {
        Some(b) if b.is_ascii_digit() => Num::read(text),
        _ => None,
    }
}

/// `bool(value)`: truth.
pub(crate) fn bool(args: &[Value], store: &Store) -> Result<Value, LibFault>
    requires { AllByRecursion (Names (length store.now.cells) (length store.now.functions)) args.now }
    ensures answer { Returns (bool_answer store.now args.now) result }
    ensures stands { IfOk result (Names (length store.now.cells) (length store.now.functions)) }
{
    Ok(Value::Bool(truth(one(args)?, store)))
}
