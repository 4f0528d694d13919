// What an array has.
ghost use Rattle.std.specs.Prelude.{◌≡◌, IfOk, length, not, option_map};
ghost use Rattle.std.specs.List.{AllByRecursion, list_any};
ghost use Rattle.dsl_value.specs.Whole.{Names};
ghost use Rattle.dsl_ops.specs.Operands.{plain, Stands};
ghost use Rattle.dsl_value.specs.Outcomes.{StandsMade};
ghost use Rattle.dsl_ops.specs.Outcomes.{Gives, or_wrong_type, truth_returned};
ghost use Rattle.dsl_ops.specs.Table.{same_in, has, without, difference};
ghost use Rattle.dsl_ops.specs.Units.{difference_units};

use crate::OpFault;
use crate::arithmetic::minus;
use crate::made::made_number;
use crate::operand::Operand;
use crate::seen::seen_of;
use dsl_value::{Made, Store, Value, equal};
use site_base::{OutOfMemory, Row};
use std::alloc::Global;

/// Whether a value equals an element.
fn contains(items: &[Value], value: &Value, store: &Store) -> bool
    requires items { AllByRecursion (Names (length store.now.cells) (length store.now.functions)) items.now }
    requires value { Names (length store.now.cells) (length store.now.functions) value.now }
    ensures { result ≡ list_any (same_in store.now.cells value.now) items.now }
{
    for item in items {
        if equal(value, item, store) {
            return true;
        }
    }
    false
}

/// Whether an array has an equal element. Null has none.
fn has_equal(value: &Value, operand: &Operand, store: &Store) -> Option<bool>
    requires value { Names (length store.now.cells) (length store.now.functions) value.now }
    requires operand { Stands (length store.now.cells) (length store.now.functions) (plain operand.now) }
    ensures { result ≡ has (same_in store.now.cells value.now) (plain operand.now) }
{
    match operand {
        Operand::Array(items) => Some(contains(items, value, store)),
        Operand::Null => Some(false),
        _ => None,
    }
}

/// `in`
pub(crate) fn is_in(value: &Value, operand: &Operand, store: &Store) -> Result<bool, OpFault>
    requires value { Names (length store.now.cells) (length store.now.functions) value.now }
    requires operand { Stands (length store.now.cells) (length store.now.functions) (plain operand.now) }
    ensures { truth_returned result ≡ or_wrong_type (has (same_in store.now.cells value.now) (plain operand.now)) }
{
    match has_equal(value, operand, store) {
        Some(found) => Ok(found),
        None => Err(OpFault::WrongType),
    }
}

/// `!in`
pub(crate) fn is_not_in(value: &Value, operand: &Operand, store: &Store) -> Result<bool, OpFault>
    requires value { Names (length store.now.cells) (length store.now.functions) value.now }
    requires operand { Stands (length store.now.cells) (length store.now.functions) (plain operand.now) }
    ensures { truth_returned result ≡ or_wrong_type (option_map not (has (same_in store.now.cells value.now) (plain operand.now))) }
{
    match has_equal(value, operand, store) {
        Some(found) => Ok(!found),
        None => Err(OpFault::WrongType),
    }
}

/// `-`: a difference of numbers, or a new array without what the right one has.
pub(crate) fn minus_or_without(
    alloc: Global,
    left: &Operand,
    right: &Operand,
    store: &Store,
) -> Result<Made, OpFault>
    requires left { Stands (length store.now.cells) (length store.now.functions) (plain left.now) }
    requires right { Stands (length store.now.cells) (length store.now.functions) (plain right.now) }
    ensures gives { Gives result (difference (same_in store.now.cells) (plain left.now) (plain right.now)) (difference_units (same_in store.now.cells) (plain left.now) (plain right.now)) }
    ensures stands { IfOk result (StandsMade (length store.now.cells) (length store.now.functions)) }
{
    match (left, right) {
        (Operand::Array(left), Operand::Array(right)) => {
            Ok(Made::Array(left_without(alloc, left, right, store)?))
        }
        _ => made_number(minus(left, right)),
    }
}

/// The left elements that equal none of the right.
#[tactic(auto, using(crate::proofs::Among::seen_found, crate::proofs::Among::seen_cells))]
fn left_without(
    alloc: Global,
    left: &[Value],
    right: &[Value],
    store: &Store,
) -> Result<Row<Value>, OutOfMemory>
    requires left { AllByRecursion (Names (length store.now.cells) (length store.now.functions)) left.now }
    requires right { AllByRecursion (Names (length store.now.cells) (length store.now.functions)) right.now }
    ensures items { IfOk result (λ r. r ≡ without (same_in store.now.cells) right.now left.now) }
    ensures stands { IfOk result (AllByRecursion (Names (length store.now.cells) (length store.now.functions))) }
{
    let seen = seen_of(alloc, right, store)?;
    let mut items = Row::new(alloc);
    for item in left {
        if !seen.contains(item, store) {
            items.push(item.clone()?)?;
        }
    }
    Ok(items)
}
