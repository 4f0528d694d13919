// The order of values.
ghost use Rattle.std.specs.Prelude.{◌≡◌, option_map};
ghost use Rattle.std.specs.Ordering.{is_lt, is_gt, is_le, is_ge};
ghost use Rattle.dsl_ops.specs.Operands.{plain};
ghost use Rattle.dsl_ops.specs.Outcomes.{or_wrong_type, truth_returned};
ghost use Rattle.dsl_ops.specs.Table.{compared};

use crate::OpFault;
use crate::operand::Operand;
use std::cmp::Ordering;

/// How two values are ordered: numbers by size, strings by their bytes. Null beside them counts as 0 and
/// as the empty string.
fn order_of(left: &Operand, right: &Operand) -> Option<Ordering>
    ensures { result ≡ compared (plain left.now) (plain right.now) }
{
    match (left, right) {
        (Operand::Number(left), Operand::Number(right)) => {
            Some(left.thousandths().cmp(&right.thousandths()))
        }
        (Operand::Null, Operand::Number(right)) => Some(0.cmp(&right.thousandths())),
        (Operand::Number(left), Operand::Null) => Some(left.thousandths().cmp(&0)),
        (Operand::Str(left), Operand::Str(right)) => Some(left.as_str().cmp(right.as_str())),
        (Operand::Null, Operand::Str(right)) => Some("".cmp(right.as_str())),
        (Operand::Str(left), Operand::Null) => Some(left.as_str().cmp("")),
        _ => None,
    }
}

/// `<`
pub(crate) fn less(left: &Operand, right: &Operand) -> Result<bool, OpFault>
    ensures { truth_returned result ≡ or_wrong_type (option_map is_lt (compared (plain left.now) (plain right.now))) }
{
    match order_of(left, right) {
        Some(order) => Ok(order.is_lt()),
        None => Err(OpFault::WrongType),
    }
}

/// `>`
pub(crate) fn greater(left: &Operand, right: &Operand) -> Result<bool, OpFault>
    ensures { truth_returned result ≡ or_wrong_type (option_map is_gt (compared (plain left.now) (plain right.now))) }
{
    match order_of(left, right) {
        Some(order) => Ok(order.is_gt()),
        None => Err(OpFault::WrongType),
    }
}

/// `<=`
pub(crate) fn less_equal(left: &Operand, right: &Operand) -> Result<bool, OpFault>
    ensures { truth_returned result ≡ or_wrong_type (option_map is_le (compared (plain left.now) (plain right.now))) }
{
    match order_of(left, right) {
        Some(order) => Ok(order.is_le()),
        None => Err(OpFault::WrongType),
    }
}

/// `>=`
pub(crate) fn greater_equal(left: &Operand, right: &Operand) -> Result<bool, OpFault>
    ensures { truth_returned result ≡ or_wrong_type (option_map is_ge (compared (plain left.now) (plain right.now))) }
{
    match order_of(left, right) {
        Some(order) => Ok(order.is_ge()),
        None => Err(OpFault::WrongType),
    }
}
