// Numbers, moments and the numbers of items.
use case_rows::unmarked;
use site_base::{ItemNo, Moment, Num, OutOfMemory, TargetNo, Text};
use std::alloc::Global;
use std::cmp::Ordering;

/// Adds the thousandths of the number that a text spells.
pub(crate) fn push_read(alloc: Global, out: &mut Text, text: &str) -> Result<(), OutOfMemory> {
    let text = unmarked(alloc, text)?;
    push_whole(out, Num::read(text.as_str()))
}

/// Adds the thousandths of a number, or `none`.
pub(crate) fn push_whole(out: &mut Text, number: Option<Num>) -> Result<(), OutOfMemory> {
    let Some(number) = number else {
        return out.push_str("none");
    };
    if number.thousandths() < 0 {
        out.push('-')?;
    }
    out.push_decimal(number.thousandths().unsigned_abs())
}

/// Adds a number, or `none`.
pub(crate) fn push_count(out: &mut Text, number: Option<u64>) -> Result<(), OutOfMemory> {
    match number {
        Some(number) => out.push_decimal(number),
        None => out.push_str("none"),
    }
}

/// What two numbers give, themselves written as thousandths.
pub(crate) fn calculated(word: &str, text: &str) -> Option<Num> {
    let (left, right) = text.split_once(' ')?;
    let (left, right) = (number(left)?, number(right)?);
    match word {
        "plus" => left.plus(&right),
        "minus" => left.minus(&right),
        "times" => left.times(&right),
        "over" => left.over(&right),
        _ => left.rest(&right),
    }
}

/// The number of so many thousandths.
fn number(text: &str) -> Option<Num> {
    Some(Num::of(text.parse::<i64>().ok()?))
}

/// Adds the text of so many thousandths.
pub(crate) fn push_written(out: &mut Text, text: &str) -> Result<(), OutOfMemory> {
    match number(text) {
        Some(number) => number.push_to(out),
        None => out.push_str("no number"),
    }
}

/// Whole seconds: those of so many thousandths, of a moment, or of a moment that is later by so many seconds.
pub(crate) fn seconds(word: &str, text: &str) -> Option<u64> {
    if word == "seconds" {
        return number(text)?.seconds();
    }
    let (text, more) = text.split_once(' ').unwrap_or((text, "0"));
    let moment = Moment::of(text.parse::<u64>().ok()?)?;
    Some(moment.later(more.parse::<u64>().ok()?).secs())
}

/// Adds which of two numbers of items comes first.
pub(crate) fn push_items_order(out: &mut Text, text: &str) -> Result<(), OutOfMemory> {
    let (left, right) = text.split_once(' ').unwrap_or((text, ""));
    let (left, right) = (item_of(left), item_of(right));
    let order = left.cmp(&right);
    if left.is_before(&right) != (order == Ordering::Less) {
        return out.push_str("is_before says otherwise");
    }
    push_order(out, order)
}

/// The number of an item whose fields are written with dots between them.
fn item_of(text: &str) -> ItemNo {
    let mut fields = [0u32; 5];
    for (field, text) in fields.iter_mut().zip(text.split('.')) {
        *field = text.parse::<u32>().unwrap_or(0);
    }
    let [item, target, host, target_key, key] = fields;
    ItemNo {
        item,
        target: TargetNo {
            item: target,
            host,
            key: target_key,
        },
        key,
    }
}

/// Adds which of two comes first.
pub(crate) fn push_order(out: &mut Text, order: Ordering) -> Result<(), OutOfMemory> {
    out.push_str(match order {
        Ordering::Less => "before",
        Ordering::Equal => "same",
        Ordering::Greater => "after",
    })
}
