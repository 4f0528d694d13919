// Rows on periods.
use crate::ranges::ranges_of;
use crate::zones::zone_of;
use site_base::{Moment, OutOfMemory, PeriodSpec, Row, Text};
use std::alloc::Global;
use std::str::SplitWhitespace;
use time_range::{Zone, inside};

/// Adds for each moment whether it is inside a period.
pub(crate) fn push_inside(alloc: Global, out: &mut Text, row: &str) -> Result<(), OutOfMemory> {
    let (place, parts) = row.split_once(" : ").unwrap_or((row, ""));
    let mut words = place.split_whitespace();
    let Some(zone) = zone_of(alloc, words.next().unwrap_or(""))? else {
        return out.push_str("no such row");
    };
    match spec_of(alloc, parts)? {
        Some(spec) => push_moments(out, &zone, &spec, words),
        None => out.push_str("no such row"),
    }
}

/// Adds whether each moment is inside, blanks between.
fn push_moments(
    out: &mut Text,
    zone: &Zone,
    spec: &PeriodSpec,
    words: SplitWhitespace<'_>,
) -> Result<(), OutOfMemory> {
    let mut is_first = true;
    for word in words {
        if !is_first {
            out.push(' ')?;
        }
        is_first = false;
        out.push_str(is_inside(zone, spec, word))?;
    }
    Ok(())
}

fn is_inside(zone: &Zone, spec: &PeriodSpec, word: &str) -> &'static str {
    match word.parse::<u64>().ok().and_then(Moment::of) {
        Some(moment) if inside(spec, moment, zone) => "yes",
        Some(_) => "no",
        None => "no moment",
    }
}

/// The period whose parts are joined by ` | `; none if one is no part.
fn spec_of(alloc: Global, parts: &str) -> Result<Option<PeriodSpec>, OutOfMemory> {
    let mut spec = PeriodSpec {
        own: Row::new(alloc),
        includes: Row::new(alloc),
        excludes: Row::new(alloc),
        prefer_includes: true,
    };
    Ok(if take_parts(alloc, &mut spec, parts)? {
        Some(spec)
    } else {
        None
    })
}

/// Takes parts into a period, and says whether each is one.
fn take_parts(alloc: Global, spec: &mut PeriodSpec, parts: &str) -> Result<bool, OutOfMemory> {
    for part in parts.split(" | ") {
        if !take_part(alloc, spec, part)? {
            return Ok(false);
        }
    }
    Ok(true)
}

/// Takes a part into a period, and says whether it is one.
fn take_part(alloc: Global, spec: &mut PeriodSpec, part: &str) -> Result<bool, OutOfMemory> {
    if part == "excludes win" {
        spec.prefer_includes = false;
        return Ok(true);
    }
    let (word, range) = part.split_once(' ').unwrap_or((part, ""));
    let Some(ranges) = ranges_of(alloc, range)? else {
        return Ok(false);
    };
    match word {
        "own" => spec.own = ranges,
        "include" => spec.includes.push(ranges)?,
        "exclude" => spec.excludes.push(ranges)?,
        _ => return Ok(false),
    }
    Ok(true)
}
