// Segments of spans.
ghost use Rattle.std.specs.Prelude.{◌≡◌, pos, neg_ℤ, Some};
ghost use Rattle.jiff_core.specs.Calendar.{weekday_number, IsBetween};
ghost use Rattle.time_range.specs.Period.{falls_on as falls};
ghost use Rattle.down_recur.specs.Instants.{moment_at as instant_at};
ghost use Rattle.down_recur.specs.Segments.{between as segment_between, segment_on as segment_of};

use site_base::{Day, DaySpan, Moment};
use time_range::Zone;

/// The seconds of a day.
const DAY: u32 = 86_400;

/// A time in which a span is: from `start` on, and before `end`, which is later.
#[derive(Clone, Copy)]
pub struct Segment {
    pub start: Moment,
    pub end: Moment,
}

/// The segment of a span on a day, as days since 1970-01-01; `None` if the day isn't one of the span's, or the span doesn't begin before it ends
/// because clocks are set.
pub(crate) fn segment_on(zone: &Zone, span: DaySpan, day: i32) -> Option<Segment>
    requires day { IsBetween (neg_ℤ (pos 10)) (pos 2_000_000) day }
    ensures { result ≡ segment_of zone.now span day }
{
    if falls_on(span.day, day) {
        between(
            moment_at(zone, day, span.from),
            moment_at(zone, day, span.to),
        )
    } else {
        None
    }
}

/// Whether a day of the calendar is one of these days.
fn falls_on(day: Day, date: i32) -> bool
    requires { IsBetween (neg_ℤ (pos 10)) (pos 2_000_000) date }
    ensures { result ≡ falls date (weekday_number date) day }
{
    match day {
        Day::Weekday(number) => number == weekday(date),
        Day::Date(wanted) => wanted == date,
    }
}

/// The day of the week of a date, with Monday as 0. 1970-01-01 was a Thursday.
#[tactic(auto, unfolding(jiff_core::specs::Calendar::weekday_number))]
fn weekday(date: i32) -> u8
    requires { IsBetween (neg_ℤ (pos 10)) (pos 2_000_000) date }
    ensures { result ≡ weekday_number date }
{
    (date + 3).rem_euclid(7) as u8
}

/// The moment at which a clock shows so many seconds after the midnight with which a day begins.
fn moment_at(zone: &Zone, day: i32, second: u32) -> Option<Moment>
    ensures { result ≡ instant_at zone.now day second }
{
    if second > DAY {
        return None;
    }
    zone.instant(day, second)
}

/// From one moment to another, if there are both and the first is before the other.
fn between(start: Option<Moment>, end: Option<Moment>) -> Option<Segment>
    ensures { result ≡ segment_between start «end» }
{
    from_to(start?, end?)
}

fn from_to(start: Moment, end: Moment) -> Option<Segment>
    ensures { result ≡ segment_between (Some start) (Some «end») }
{
    if start < end {
        Some(Segment { start, end })
    } else {
        None
    }
}
