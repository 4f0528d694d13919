// What would cost more than is left, found before it is made.
ghost use Rattle.std.specs.Prelude.{◌≡◌, ◌<◌, ◌≤◌, ◌+◌, length, IsTrue, IfSome, IfNone};
ghost use Rattle.site_base.specs.Numbers.{number_text};
ghost use Rattle.std.specs.List.{AllByRecursion, list_all};
ghost use Rattle.dsl_value.specs.Outcomes.{made_units};
ghost use Rattle.dsl_value.specs.Whole.{Names};
ghost use Rattle.dsl_lib.specs.Arrays.{join};
ghost use Rattle.dsl_lib.specs.Library.{answer};
ghost use Rattle.dsl_lib.specs.Limits.{is_scalar, scalar_bytes, separated_bytes};
ghost use Rattle.dsl_lib.specs.Sets.{range, ranged};
ghost use Rattle.dsl_lib.specs.Texts.{replace, replaced_behind};
ghost use Rattle.dsl_lib.specs.Units.{units as units_of};

use crate::Plain;
use crate::args::{items, number, text, three, two};
use dsl_value::{Store, Value};
use site_base::{Num, Text};
use std::alloc::Global;

/// Whether a call of `range`, `join` or `replace`, which make more than they are given, costs more units than so many.
/// Nothing is made for that. Of another call nothing is told.
pub(crate) fn is_over(alloc: Global, name: Plain, args: &[Value], most: u64, store: &Store) -> bool
    requires { AllByRecursion (Names (length store.now.cells) (length store.now.functions)) args.now }
    ensures { IsTrue result → most < units_of name (answer name store.now args.now) }
{
    match name {
        Plain::Range => range_is_over(args, most),
        Plain::ArrayJoin => join_is_over(alloc, args, most, store),
        Plain::TextReplace => replace_is_over(args, most),
        _ => false,
    }
}

fn range_is_over(args: &[Value], most: u64) -> bool
    ensures { IsTrue result → most < made_units (range args.now) }
{
    match args {
        [end] => match number(end) {
            Ok(end) => numbers_are_over(Num::of(0), end, Num::of(1000), most),
            Err(_) => false,
        },
        [start, end] => match (number(start), number(end)) {
            (Ok(start), Ok(end)) => numbers_are_over(start, end, Num::of(1000), most),
            _ => false,
        },
        [start, end, step] => match (number(start), number(end), number(step)) {
            (Ok(start), Ok(end), Ok(step)) => numbers_are_over(start, end, step, most),
            _ => false,
        },
        _ => false,
    }
}

/// Whether there are so many numbers from a first one on by a step below the end.
#[tactic(auto, using(crate::proofs::Limits::over_ranged))]
fn numbers_are_over(first: Num, end: Num, step: Num, most: u64) -> bool
    ensures { IsTrue result → most < made_units (ranged first end step) }
{
    let distance = i128::from(end.thousandths()) - i128::from(first.thousandths());
    let Ok(distance) = u128::try_from(distance) else {
        return false;
    };
    let Ok(step) = u128::try_from(step.thousandths()) else {
        return false;
    };
    if step == 0 {
        return false;
    }
    let Some(sum) = distance.checked_add(step - 1) else {
        return false;
    };
    sum / step >= u128::from(most)
}

#[tactic(auto, using(crate::proofs::Limits::over_replaced))]
fn replace_is_over(args: &[Value], most: u64) -> bool
    ensures { IsTrue result → most < made_units (replace args.now) }
{
    let Ok((of, part, by)) = three(args) else {
        return false;
    };
    let Ok(of) = text(of) else {
        return false;
    };
    let Ok(part) = text(part) else {
        return false;
    };
    let Ok(by) = text(by) else {
        return false;
    };
    if part.is_empty() {
        return false;
    }
    replaced_is_over(of, part, by, most)
}

/// Whether a text has more bytes than so many once each part is replaced.
#[tactic(auto, using(crate::proofs::Limits::replaced_length, crate::proofs::Limits::replaced_rest))]
fn replaced_is_over(text: &str, part: &str, by: &str, most: u64) -> bool
    requires { 0 < length part.now }
    ensures { IsTrue result → most < length (replaced_behind part.now by.now 0 text.now) }
{
    let mut left = most;
    let mut rest = text;
    while let Some((front, back)) = rest.split_once(part) {
        let Some(behind) = less(left, front.len(), by.len()) else {
            return true;
        };
        left = behind;
        rest = back;
    }
    rest.len() as u64 > left
}

/// What is left of so many bytes without these.
fn less(left: u64, front: usize, by: usize) -> Option<u64>
    ensures within { IfSome result (λ n. n + (front + by) ≡ left) }
    ensures over { IfNone result (left < front + by) }
{
    left.checked_sub(front as u64)?.checked_sub(by as u64)
}

#[tactic(auto, using(crate::proofs::Limits::over_joined))]
fn join_is_over(alloc: Global, args: &[Value], most: u64, store: &Store) -> bool
    requires { AllByRecursion (Names (length store.now.cells) (length store.now.functions)) args.now }
    ensures { IsTrue result → most < made_units (join store.now args.now) }
{
    let Ok((of, separator)) = two(args) else {
        return false;
    };
    let Ok(items) = items(of, store) else {
        return false;
    };
    let Ok(separator) = text(separator) else {
        return false;
    };
    if !are_scalars(items) {
        return false;
    }
    joined_is_over(alloc, items, separator, most)
}

/// Whether each of some values has a text.
fn are_scalars(items: &[Value]) -> bool
    ensures { result ≡ list_all is_scalar items.now }
{
    for item in items {
        if !has_text(item) {
            return false;
        }
    }
    true
}

fn has_text(value: &Value) -> bool
    ensures { result ≡ is_scalar value.now }
{
    match value {
        Value::Str(_) => true,
        Value::Number(_) => true,
        Value::Bool(_) => true,
        _ => false,
    }
}

/// Whether the texts of scalars have more bytes than so many, with a separator between each two.
fn joined_is_over(alloc: Global, items: &[Value], separator: &str, most: u64) -> bool
    ensures { IsTrue result → most + length separator.now < separated_bytes separator.now items.now }
{
    let Some((first, rest)) = items.split_first() else {
        return false;
    };
    let Some(mut left) = less(most, text_len(alloc, first), 0) else {
        return true;
    };
    for item in rest {
        let Some(behind) = less(left, separator.len(), text_len(alloc, item)) else {
            return true;
        };
        left = behind;
    }
    false
}

/// The bytes of a scalar's text, or fewer if there is no memory to write a number.
fn text_len(alloc: Global, value: &Value) -> usize
    ensures { result ≤ scalar_bytes value.now }
{
    match value {
        Value::Str(text) => text.len(),
        Value::Number(number) => number_len(alloc, number),
        Value::Bool(true) => 4,
        Value::Bool(false) => 5,
        _ => 0,
    }
}

fn number_len(alloc: Global, number: &Num) -> usize
    ensures { result ≤ length (number_text number.now) }
{
    let mut text = Text::new(alloc);
    match number.push_to(&mut text) {
        Ok(()) => text.len(),
        Err(_) => 0,
    }
}
