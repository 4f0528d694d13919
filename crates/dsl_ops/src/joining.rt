// What `+` joins.
ghost use Rattle.std.specs.Prelude.{◌≡◌, ◌<◌, ◌++◌, IfOk, OnOk, ℕ};
ghost use Rattle.dsl_ops.specs.Operands.{plain, Stands, IsInOrder};
ghost use Rattle.dsl_value.specs.Outcomes.{StandsMade};
ghost use Rattle.dsl_ops.specs.Outcomes.{Gives};
ghost use Rattle.dsl_ops.specs.Table.{has_text, text_of, is_string, are_joined, joined, kept, sum};
ghost use Rattle.dsl_ops.specs.Units.{copy_units, text_units, sum_units};

use crate::OpFault;
use crate::arithmetic::number_or_overflow;
use crate::made::made_number;
use crate::merge::{copied_pairs, merged_pairs};
use crate::operand::Operand;
use dsl_value::{Made, Value};
use site_base::{OutOfMemory, Row, Text};
use std::alloc::Global;

/// `+`: a sum, what null leaves of the other operand, a new array or dictionary of both, or a text.
pub(crate) fn plus<'a>(
    alloc: Global,
    left: &Operand<'a>,
    right: &Operand<'a>,
) -> Result<Made, OpFault>
    requires left { IsInOrder (plain left.now) }
    requires right { IsInOrder (plain right.now) }
    ensures gives { Gives result (sum (plain left.now) (plain right.now)) (sum_units (plain left.now) (plain right.now)) }
    ensures stands { (cells functions : ℕ) → Stands cells functions (plain left.now) → Stands cells functions (plain right.now) → IfOk result (StandsMade cells functions) }
{
    match (left, right) {
        (Operand::Number(left), Operand::Number(right)) => made_number(number_or_overflow(left.plus(
            right,
        ))),
        (Operand::Null, right) => kept_of(alloc, right),
        (left, Operand::Null) => kept_of(alloc, left),
        (Operand::Array(left), Operand::Array(right)) => {
            Ok(Made::Array(array_of_both(alloc, left, right)?))
        }
        (Operand::Dict(left), Operand::Dict(right)) => {
            Ok(Made::Dict(merged_pairs(alloc, left, right)?))
        }
        _ => text_of_both(alloc, left, right),
    }
}

/// What null leaves of the other operand: that operand, or a copy of an array or a dictionary.
fn kept_of(alloc: Global, operand: &Operand) -> Result<Made, OpFault>
    requires { IsInOrder (plain operand.now) }
    ensures gives { Gives result (kept (plain operand.now)) (copy_units (plain operand.now)) }
    ensures stands { (cells functions : ℕ) → Stands cells functions (plain operand.now) → IfOk result (StandsMade cells functions) }
{
    match operand {
        Operand::Null => Ok(Made::Value(Value::Null)),
        Operand::Bool(value) => Ok(Made::Value(Value::Bool(*value))),
        Operand::Number(number) => Ok(Made::Value(Value::Number(*number))),
        Operand::Str(text) => Ok(Made::Value(Value::Str((*text).clone()?))),
        Operand::Array(items) => Ok(Made::Array(array_of_both(alloc, items, &[])?)),
        Operand::Dict(pairs) => Ok(Made::Dict(copied_pairs(alloc, pairs)?)),
        Operand::Func(_) => Err(OpFault::WrongType),
    }
}

/// The elements of both.
fn array_of_both(alloc: Global, left: &[Value], right: &[Value]) -> Result<Row<Value>, OutOfMemory>
    ensures { IfOk result (λ r. r ≡ left.now ++ right.now) }
{
    let mut items = Row::new(alloc);
    add_values(&mut items, left)?;
    add_values(&mut items, right)?;
    Ok(items)
}

fn add_values(items: &mut Row<Value>, more: &[Value]) -> Result<(), OutOfMemory>
    ensures { OnOk result (items.new ≡ items.old ++ more.now) }
{
    for item in more {
        items.push(item.clone()?)?;
    }
    Ok(())
}

/// The texts of two operands, one of them at least a string, joined.
fn text_of_both(alloc: Global, left: &Operand, right: &Operand) -> Result<Made, OpFault>
    ensures gives { Gives result (joined (plain left.now) (plain right.now)) (text_units (plain left.now) (plain right.now)) }
    ensures stands { (cells functions : ℕ) → IfOk result (StandsMade cells functions) }
{
    if !joins(left, right) {
        return Err(OpFault::WrongType);
    }
    let mut text = Text::new(alloc);
    push_text(&mut text, left)?;
    push_text(&mut text, right)?;
    Ok(Made::Text(text))
}

fn joins(left: &Operand, right: &Operand) -> bool
    ensures { result ≡ are_joined (plain left.now) (plain right.now) }
{
    (is_text(left) || is_text(right)) && shows(left) && shows(right)
}

/// Whether it is a string.
fn is_text(operand: &Operand) -> bool
    ensures { result ≡ is_string (plain operand.now) }
{
    matches!(operand, Operand::Str(_))
}

/// Whether it has a text.
fn shows(operand: &Operand) -> bool
    ensures { result ≡ has_text (plain operand.now) }
{
    matches!(
        operand,
        Operand::Str(_) | Operand::Number(_) | Operand::Bool(_)
    )
}

/// Adds the operand's text, if it has one.
fn push_text(text: &mut Text, operand: &Operand) -> Result<(), OutOfMemory>
    ensures { OnOk result (text.new ≡ text.old ++ text_of (plain operand.now)) }
{
    match operand {
        Operand::Str(more) => text.push_str(more.as_str()),
        Operand::Number(number) => number.push_to(text),
        Operand::Bool(true) => text.push_str("true"),
        Operand::Bool(false) => text.push_str("false"),
        _ => Ok(()),
    }
}
