// Rows on time ranges.
ghost use Rattle.std.specs.Prelude.{IfOk};
ghost use Rattle.site_base.specs.View.{view};
ghost use Rattle.time_range.specs.Ranges.{CanRead};

use case_rows::unmarked;
use site_base::{Day, DaySpan, Num, OutOfMemory, Ranges, Text, Tree, push_quoted};
use std::alloc::Global;
use time_range::{RangeFault, read_ranges};

/// Adds what is read of keys with their texts, or which key is refused.
pub(crate) fn push_ranges_of(alloc: Global, out: &mut Text, row: &str) -> Result<(), OutOfMemory> {
    let tree = tree_of(alloc, row)?;
    match read_ranges(alloc, &tree) {
        Ok(ranges) => push_ranges(out, &ranges),
        Err(RangeFault::BadRange { key }) => {
            out.push_str("bad ")?;
            push_quoted(out, key.as_str())
        }
        Err(RangeFault::OutOfMemory) => Err(OutOfMemory),
    }
}

/// The ranges of a key with its text; none if they are refused.
pub(crate) fn ranges_of(alloc: Global, range: &str) -> Result<Option<Ranges>, OutOfMemory> {
    let tree = tree_of(alloc, range)?;
    match read_ranges(alloc, &tree) {
        Ok(ranges) => Ok(Some(ranges)),
        Err(RangeFault::BadRange { .. }) => Ok(None),
        Err(RangeFault::OutOfMemory) => Err(OutOfMemory),
    }
}

/// Null, or the dictionary whose keys and texts are joined by ` | `.
fn tree_of(alloc: Global, row: &str) -> Result<Tree, OutOfMemory>
    ensures { IfOk result (λ tree. CanRead (view tree)) }
{
    if row == "(null)" {
        return Ok(Tree::Null);
    }
    let mut pairs = Vec::new(alloc);
    for range in row.split(" | ") {
        pairs.push(pair_of(alloc, range)?)?;
    }
    Ok(Tree::Dict(pairs))
}

/// A key with its value.
fn pair_of(alloc: Global, range: &str) -> Result<(Text, Tree), OutOfMemory> {
    let (key, text) = range.split_once('=').unwrap_or((range, ""));
    let value = value_of(alloc, text.trim_matches(' '))?;
    Ok((unmarked(alloc, key.trim_matches(' '))?, value))
}

/// A text, or another value that is named in parentheses.
fn value_of(alloc: Global, text: &str) -> Result<Tree, OutOfMemory> {
    Ok(match text {
        "(null)" => Tree::Null,
        "(true)" => Tree::Bool(true),
        "(number)" => Tree::Number(Num::of(0)),
        "(list)" => Tree::List(Vec::new(alloc)),
        "(dictionary)" => Tree::Dict(Vec::new(alloc)),
        text => Tree::Str(unmarked(alloc, text)?),
    })
}

fn push_ranges(out: &mut Text, ranges: &Ranges) -> Result<(), OutOfMemory> {
    if ranges.is_empty() {
        return out.push_str("no span");
    }
    for (index, span) in ranges.as_slice().iter().enumerate() {
        if index > 0 {
            out.push_str(", ")?;
        }
        push_span(out, *span)?;
    }
    Ok(())
}

/// Adds the day, and the seconds from which on and before which the span holds.
fn push_span(out: &mut Text, span: DaySpan) -> Result<(), OutOfMemory> {
    match span.day {
        Day::Weekday(number) => {
            out.push_str("weekday ")?;
            out.push_decimal(u64::from(number))?;
        }
        Day::Date(date) => {
            out.push_str(if date < 0 { "date -" } else { "date " })?;
            out.push_decimal(u64::from(date.unsigned_abs()))?;
        }
    }
    out.push(' ')?;
    out.push_decimal(u64::from(span.from))?;
    out.push('-')?;
    out.push_decimal(u64::from(span.to))
}
