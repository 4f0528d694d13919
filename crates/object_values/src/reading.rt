// What values stand for.
ghost use Rattle.std.specs.Prelude.{◌≡◌, List, ℕ, Result, IfOk};
ghost use Rattle.std.specs.Option.{option_copied};
ghost use Rattle.site_base.specs.View.{view};
ghost use Rattle.site_base.specs.declared.day_span.DaySpan.{DaySpan};
ghost use Rattle.time_range.specs.Ranges.{Gives, ranges_in};
ghost use Rattle.object_values.specs.Attributes.{value_view};
ghost use Rattle.object_values.specs.Values.{is_true as true_in, unset_flag as unset_true, unset_number as unset_count, number_by};
ghost use Rattle.object_values.specs.Values.{whole_of as whole_in, whole_seconds as seconds_in, thousandths_of as thousandths_in};
ghost use Rattle.object_values.specs.Values.{limit_of as limit_by, limit_in as limit_among, limit_under as limit_inside, spans_or_none, string_of};

use crate::attributes::value_under;
use object_types::Unset;
use site_base::{Num, OutOfMemory, Ranges, Row, Tree};
use std::alloc::Global;
use time_range::{RangeFault, read_ranges};

pub(crate) fn is_true(value: &Tree) -> bool
    ensures { result ≡ true_in (view value.now) }
{
    match value {
        Tree::Bool(on) => *on,
        _ => false,
    }
}

pub(crate) fn unset_flag(unset: Unset) -> bool
    ensures { result ≡ unset_true unset }
{
    match unset {
        Unset::Bool(on) => on,
        _ => false,
    }
}

pub(crate) fn unset_number(unset: Unset) -> u32
    ensures { result ≡ unset_count unset }
{
    match unset {
        Unset::Number(number) => number,
        _ => 0,
    }
}

/// The whole part of a number.
pub(crate) fn whole(value: &Tree) -> u32
    ensures { result ≡ number_by whole_in (view value.now) }
{
    match value {
        Tree::Number(number) => whole_of(*number),
        _ => 0,
    }
}

fn whole_of(number: Num) -> u32
    ensures { result ≡ whole_in number }
{
    u32::try_from(thousandths_of(number) / 1000).unwrap_or(u32::MAX)
}

/// A number in thousandths.
pub(crate) fn thousandths(value: &Tree) -> u64
    ensures { result ≡ number_by thousandths_in (view value.now) }
{
    match value {
        Tree::Number(number) => thousandths_of(*number),
        _ => 0,
    }
}

fn thousandths_of(number: Num) -> u64
    ensures { result ≡ thousandths_in number }
{
    u64::try_from(number.thousandths()).unwrap_or(0)
}

/// Whole seconds, rounded up.
pub(crate) fn seconds(value: &Tree) -> u64
    ensures { result ≡ number_by seconds_in (view value.now) }
{
    match value {
        Tree::Number(number) => number.seconds().unwrap_or(0),
        _ => 0,
    }
}

/// The limit under a key, in whole seconds, rounded up.
pub(crate) fn limit_in(key: &str, value: Option<&Tree>) -> Option<u64>
    ensures { result ≡ limit_among key.now (value_view value.entry) }
{
    match value {
        Some(value) => limit_under(key, value),
        None => None,
    }
}

fn limit_under(key: &str, value: &Tree) -> Option<u64>
    ensures { result ≡ limit_inside key.now (view value.now) }
{
    match value {
        Tree::Dict(pairs) => limit_of(value_under(key, pairs)),
        _ => None,
    }
}

fn limit_of(value: Option<&Tree>) -> Option<u64>
    ensures { result ≡ limit_by (value_view value.entry) }
{
    match value {
        Some(Tree::Number(number)) => number.seconds(),
        _ => None,
    }
}

/// The string that a value is; `None` if it is none.
pub fn text_of(value: &Tree) -> Option<&str>
    ensures { option_copied result ≡ string_of (view value.now) }
{
    match value {
        Tree::Str(text) => Some(text.as_str()),
        _ => None,
    }
}

/// The spans of time ranges.
pub(crate) fn spans(alloc: Global, value: &Tree) -> Result<Ranges, OutOfMemory>
    ensures { IfOk result (λ r. r ≡ spans_or_none (ranges_in (view value.now))) }
{
    match value {
        Tree::Dict(_) => those_read(alloc, read_ranges(alloc, value)),
        _ => Ok(Row::new(alloc)),
    }
}

/// The spans that were read; a lawful object's are.
fn those_read(alloc: Global, read: Result<Ranges, RangeFault>) -> Result<Ranges, OutOfMemory>
    ensures { (ranges : Result (List DaySpan) (List ℕ)) → Gives read ranges
        → IfOk result (λ r. r ≡ spans_or_none ranges) }
{
    match read {
        Ok(spans) => Ok(spans),
        Err(RangeFault::BadRange { .. }) => Ok(Row::new(alloc)),
        Err(RangeFault::OutOfMemory) => Err(OutOfMemory),
    }
}
