// When a moment is inside a time period.
ghost use Rattle.std.specs.Prelude.{◌≡◌};
ghost use Rattle.jiff_core.specs.Date.{epoch_day, weekday_of};
ghost use Rattle.jiff_core.specs.Time.{time_seconds};
ghost use Rattle.jiff_core.specs.declared.civil.datetime.DateTime.{DateTime};
ghost use Rattle.time_range.specs.Period.{falls_on, span_holds, any_holds, any_list_holds};
ghost use Rattle.time_range.specs.Period.{period_holds, is_inside};
ghost use Rattle.time_range.specs.Zone.{Shows};

use crate::Zone;
use crate::local::Local;
use site_base::{Day, DaySpan, Moment, PeriodSpec, Ranges};

/// Whether a moment is inside a period, by the date, the day of the week and the second of the day
/// that a clock of the zone shows at it. Takes no memory.
pub fn inside(spec: &PeriodSpec, moment: Moment, zone: &Zone) -> bool
    // By what a clock of the zone shows then.
    ensures civil { (civil : DateTime) × Shows zone.now moment civil
        × (result ≡ period_holds (epoch_day civil.date) (weekday_of civil.date)
        (time_seconds civil.time) spec.now) }
    // The same, calculated.
    ensures value { result ≡ is_inside spec.now moment zone.now }
{
    holds(spec, Local::of(zone.shown(moment)))
}

/// Whether a period holds at a local time.
fn holds(spec: &PeriodSpec, local: Local) -> bool
    ensures { result ≡ period_holds local.day local.weekday local.second spec.now }
{
    if spec.prefer_includes {
        any_list_holds(spec.includes.as_slice(), local)
            || any_holds(spec.own.as_slice(), local)
                && !any_list_holds(spec.excludes.as_slice(), local)
    } else {
        (any_holds(spec.own.as_slice(), local) || any_list_holds(spec.includes.as_slice(), local))
            && !any_list_holds(spec.excludes.as_slice(), local)
    }
}

/// Whether a span of one of the lists holds.
fn any_list_holds(lists: &[Ranges], local: Local) -> bool
    ensures { result ≡ any_list_holds local.day local.weekday local.second lists.now }
{
    lists
        .iter()
        .any(|ranges| any_holds(ranges.as_slice(), local))
}

/// Whether one of the spans holds.
fn any_holds(spans: &[DaySpan], local: Local) -> bool
    ensures { result ≡ any_holds local.day local.weekday local.second spans.now }
{
    spans.iter().any(|span| span_holds(*span, local))
}

/// Whether a span holds: on its days, from its start on and before its end.
fn span_holds(span: DaySpan, local: Local) -> bool
    ensures { result ≡ span_holds local.day local.weekday local.second span }
{
    falls_on(span.day, local) && span.from <= local.second && local.second < span.to
}

/// Whether a local time is on one of these days.
fn falls_on(day: Day, local: Local) -> bool
    ensures { result ≡ falls_on local.day local.weekday day }
{
    match day {
        Day::Weekday(number) => number == local.weekday,
        Day::Date(date) => date == local.day,
    }
}
