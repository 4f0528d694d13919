// Rows on zones.
use crate::zone_files::{fixed, with_summer};
use site_base::{OutOfMemory, Text};
use std::alloc::Global;
use std::str::SplitWhitespace;
use time_range::{Zone, ZoneFault};

/// The rule of central Europe.
const RULE: &str = "CET-1CEST,M3.5.0,M10.5.0/3";

/// The bytes of the file that a row names; none if it names none.
fn bytes_of(alloc: Global, row: &str) -> Result<Option<Vec<u8>>, OutOfMemory> {
    let (word, text) = row.split_once(' ').unwrap_or((row, ""));
    Ok(match word {
        "fixed" => match text.parse::<i32>() {
            Ok(ahead) => Some(fixed(alloc, ahead)?),
            Err(_) => None,
        },
        "summer" => Some(with_summer(alloc, text)?),
        "cut" => {
            let mut bytes = with_summer(alloc, RULE)?;
            bytes.truncate(text.parse::<usize>().unwrap_or(0));
            Some(bytes)
        }
        _ => None,
    })
}

/// Adds whether a zone file is read.
pub(crate) fn push_file(alloc: Global, out: &mut Text, row: &str) -> Result<(), OutOfMemory> {
    let Some(bytes) = bytes_of(alloc, row)? else {
        return out.push_str("no such file");
    };
    match Zone::of_file(alloc, &bytes) {
        Ok(_) => out.push_str("read"),
        Err(ZoneFault::BadZone) => out.push_str("bad"),
        Err(ZoneFault::OutOfMemory) => Err(OutOfMemory),
    }
}

/// The zone of this name: `utc`, `europe`, or so many seconds ahead of UTC.
pub(crate) fn zone_of(alloc: Global, name: &str) -> Result<Option<Zone>, OutOfMemory> {
    let bytes = match name {
        "utc" => return Ok(Some(Zone::utc())),
        "europe" => with_summer(alloc, RULE)?,
        name => match name.parse::<i32>() {
            Ok(ahead) => fixed(alloc, ahead)?,
            Err(_) => return Ok(None),
        },
    };
    match Zone::of_file(alloc, &bytes) {
        Ok(zone) => Ok(Some(zone)),
        Err(ZoneFault::BadZone) => Ok(None),
        Err(ZoneFault::OutOfMemory) => Err(OutOfMemory),
    }
}

/// Adds the instant of a civil time.
pub(crate) fn push_instant(alloc: Global, out: &mut Text, row: &str) -> Result<(), OutOfMemory> {
    let mut words = row.split_whitespace();
    match zone_of(alloc, words.next().unwrap_or(""))? {
        Some(zone) => push_instant_in(out, &zone, &mut words),
        None => out.push_str("no such row"),
    }
}

/// Adds the instant of the day and the second that the words tell.
fn push_instant_in(
    out: &mut Text,
    zone: &Zone,
    words: &mut SplitWhitespace<'_>,
) -> Result<(), OutOfMemory> {
    let day = words.next().and_then(|word| word.parse::<i32>().ok());
    let second = words.next().and_then(|word| word.parse::<u32>().ok());
    let (Some(day), Some(second)) = (day, second) else {
        return out.push_str("no such row");
    };
    if second > 86_400 {
        return out.push_str("no such second");
    }
    match zone.instant(day, second) {
        Some(moment) => out.push_decimal(moment.secs()),
        None => out.push_str("none"),
    }
}
