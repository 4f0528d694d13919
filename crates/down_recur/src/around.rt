// The segments around a moment.
ghost use Rattle.std.specs.Prelude.{◌≡◌, ◌≤◌, ◌++◌, pos, neg_ℤ, ◌-ℤ◌, IfOk, OnOk};
ghost use Rattle.std.specs.Option.{option_to_list};
ghost use Rattle.jiff_core.specs.Calendar.{IsBetween};
ghost use Rattle.down_recur.specs.Segments.{day_of as day_at, of_span, segments_around};

use crate::Segment;
use crate::segment::segment_on;
use site_base::{DaySpan, Moment, OutOfMemory};
use std::alloc::Global;
use time_range::Zone;

/// The seconds of a day.
const DAY: u64 = 86_400;

/// How many days are around a moment, from two days before its own on.
const DAYS: u32 = 7;

/// The segments of spans on the days around a moment, in the order of the spans, those of one span by their days.
#[tactic(auto, unfolding(crate::specs::Segments::segments_around))]
pub(crate) fn around(
    alloc: Global,
    zone: &Zone,
    spans: &[DaySpan],
    moment: Moment,
) -> Result<Vec<Segment>, OutOfMemory>
    ensures { IfOk result (λ v. v.items ≡ segments_around zone.now moment spans.now) }
{
    let day = day_of(moment);
    let mut segments = Vec::new(alloc);
    for span in spans {
        push_span(&mut segments, zone, day, *span)?;
    }
    Ok(segments)
}

/// The day of a moment in UTC, as days since 1970-01-01.
fn day_of(moment: Moment) -> u32
    ensures value { result ≡ day_at moment }
    ensures within { result ≤ 1_500_000 }
{
    (moment.secs() / DAY) as u32
}

/// Adds the segments of a span on the days around one.
fn push_span(
    out: &mut Vec<Segment>,
    zone: &Zone,
    day: u32,
    span: DaySpan,
) -> Result<(), OutOfMemory>
    requires { day ≤ 1_500_000 }
    ensures { OnOk result (out.new.items ≡ out.old.items ++ of_span zone.now day span) }
{
    for step in 0..DAYS {
        push_some(out, segment_on(zone, span, date_at(day + step)))?;
    }
    Ok(())
}

/// The date so many days after 1969-12-30, as days since 1970-01-01.
fn date_at(place: u32) -> i32
    requires { place ≤ 1_600_000 }
    ensures value { result ≡ pos place -ℤ pos 2 }
    ensures within { IsBetween (neg_ℤ (pos 10)) (pos 2_000_000) result }
{
    place as i32 - 2
}

fn push_some(out: &mut Vec<Segment>, segment: Option<Segment>) -> Result<(), OutOfMemory>
    ensures { OnOk result (out.new.items ≡ out.old.items ++ option_to_list segment) }
{
    if let Some(segment) = segment {
        out.push(segment)?;
    }
    Ok(())
}
