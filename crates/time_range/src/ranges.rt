// How time ranges are read.
ghost use Rattle.std.specs.Prelude.{◌≡◌, List, ℕ, Ok, Err, IfOk};
ghost use Rattle.site_base.specs.View.{view, pairs_view};
ghost use Rattle.time_range.specs.Spans.{IsPushed};
ghost use Rattle.time_range.specs.Ranges.{CanRead, HasRisingKeys, Holds, Refuses, Gives};
ghost use Rattle.time_range.specs.Ranges.{value_spans, range_of, ranges_of, ranges_in};
ghost use Rattle.site_base.specs.declared.day_span.DaySpan.{DaySpan};

use crate::RangeFault;
use crate::day_key::day_of;
use crate::span_text::push_spans;
use site_base::{Day, OutOfMemory, Ranges, Row, Text, Tree};
use std::alloc::Global;

/// The spans that the attribute `ranges` of a time period stands for, in the order of its keys and,
/// under one key, as written; none if it is null.
///
/// A key is a day of the week in lower case or a date `YYYY-MM-DD`. Its value is a text of spans
/// `HH:MM-HH:MM` joined by commas: the start is before the end, which is at most `24:00`, and
/// spaces, tabs and carriage returns may stand round each. The empty text is no span.
///
/// # Errors
///
/// `BadRange` names the first key for which that isn't so: the least in byte order, since the keys
/// of a dictionary stand in that order. `OutOfMemory` if there is none for the spans.
pub fn read_ranges(alloc: Global, tree: &Tree) -> Result<Ranges, RangeFault>
    requires { CanRead (view tree.now) }
    // What is read is what the keys and their texts say, and what they say is read, unless memory
    // runs out.
    ensures found { IfOk result (Holds (view tree.now)) }
    ensures only { (spans : List DaySpan) → Holds (view tree.now) spans →
        Gives result (Ok spans) }
    // Where the keys stand in byte order: a key is refused that is the first bad one, and the first
    // bad one is refused, unless memory runs out.
    ensures refused { HasRisingKeys (view tree.now) → (key : List ℕ) →
        result ≡ Err (RangeFault.BadRange key) → Refuses (view tree.now) key }
    ensures bad { HasRisingKeys (view tree.now) → (key : List ℕ) →
        Refuses (view tree.now) key → Gives result (Err key) }
    // The same, calculated, whatever the order.
    ensures exact { Gives result (ranges_in (view tree.now)) }
{
    match tree {
        Tree::Dict(pairs) => ranges_of(alloc, pairs),
        _ => Ok(Row::new(alloc)),
    }
}

/// The spans that keys and their values stand for.
fn ranges_of(alloc: Global, pairs: &[(Text, Tree)]) -> Result<Ranges, RangeFault>
    ensures { Gives result (ranges_of (pairs_view pairs.now)) }
{
    let mut ranges = Row::new(alloc);
    for (key, value) in pairs {
        if !push_range(&mut ranges, key, value)? {
            return Err(RangeFault::BadRange { key: key.clone()? });
        }
    }
    Ok(ranges)
}

/// Adds the spans that a key and its value stand for. Answers whether they are a range; if they are
/// not, some spans may have been added.
fn push_range(out: &mut Ranges, key: &Text, value: &Tree) -> Result<bool, OutOfMemory>
    ensures { IfOk result
        (λ taken. IsPushed taken out.old out.new (range_of key.now (view value.now))) }
{
    match day_of(key.as_bytes()) {
        Some(day) => push_value(out, day, value),
        None => Ok(false),
    }
}

/// The same of a value, on a day.
fn push_value(out: &mut Ranges, day: Day, value: &Tree) -> Result<bool, OutOfMemory>
    ensures { IfOk result
        (λ taken. IsPushed taken out.old out.new (value_spans day (view value.now))) }
{
    match value {
        Tree::Str(text) => push_spans(out, day, text.as_bytes()),
        _ => Ok(false),
    }
}
