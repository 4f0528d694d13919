// Which day a key of time ranges names.
ghost use Rattle.std.specs.Prelude.{◌≡◌, ◌<◌};
ghost use Rattle.time_range.specs.Days.{weekday_named, date_written, lawful_day, day_of};

use crate::clock::number_of;
use jiff::civil::Date;
use site_base::Day;

/// The day that a key names: a day of the week, or a date.
pub fn day_of(key: &[u8]) -> Option<Day>
    ensures { result ≡ day_of key.now }
{
    match weekday_named(key) {
        Some(number) => Some(Day::Weekday(number)),
        None => Some(Day::Date(date_written(key)?)),
    }
}

/// The day of the week of this name, from Monday, 0, on.
fn weekday_named(key: &[u8]) -> Option<u8>
    ensures { result ≡ weekday_named key.now }
{
    match key {
        b"monday" => Some(0),
        b"tuesday" => Some(1),
        b"wednesday" => Some(2),
        b"thursday" => Some(3),
        b"friday" => Some(4),
        b"saturday" => Some(5),
        b"sunday" => Some(6),
        _ => None,
    }
}

/// The date `YYYY-MM-DD` that a key is, in days since 1970-01-01.
#[tactic(auto, unfolding(crate::specs::Days::date_written))]
fn date_written(key: &[u8]) -> Option<i32>
    ensures { result ≡ date_written key.now }
{
    if key.len() != 10 || key[4] != b'-' || key[7] != b'-' {
        return None;
    }
    let century = number_of(key[0], key[1])?;
    let year = number_of(key[2], key[3])?;
    let month = number_of(key[5], key[6])?;
    let day = number_of(key[8], key[9])?;
    lawful_day(u16::from(century) * 100 + u16::from(year), month, day)
}

/// The day of a year's month, in days since 1970-01-01, where the calendar has it.
fn lawful_day(year: u16, month: u8, day: u8) -> Option<i32>
    requires year { year < 10_000 }
    requires month { month < 100 }
    requires day { day < 100 }
    ensures { result ≡ lawful_day year month day }
{
    let date = Date::new(year as i16, month as i8, day as i8).ok()?;
    Some(date.to_plain().to_unix_epoch_day())
}
