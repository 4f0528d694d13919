// Which segments are due, and from when on others may be.
ghost use Rattle.std.specs.Prelude.{◌≡◌, ◌+◌, ◌≤◌, [], filter, IfOk};
ghost use Rattle.down_recur.specs.Due.{IsQuiet, by_start as in_order, due_of, horizon_of, is_due as is_segment_due, least_start as least_of};

use crate::Segment;
use crate::around::around;
use site_base::{DaySpan, Moment, OutOfMemory};
use std::alloc::Global;
use time_range::Zone;

/// The seconds from which on and until which segments begin that are looked for.
#[derive(Clone, Copy)]
pub(crate) struct Window {
    pub(crate) from: u64,
    pub(crate) till: u64,
}

/// What is found of spans at a moment.
#[derive(Drop)]
pub(crate) struct Found {
    /// The segments that are due, by their starts and then by the order of the spans.
    pub(crate) due: Vec<Segment>,
    /// No segment that ends after the moment begins behind those that are looked for and before this second.
    pub(crate) next: u64,
}

/// The segments of spans that begin from the second `from` on and not after the second `till`, and end after a moment. All of them are
/// found where `till` is at most a day after the moment.
///
/// # Errors
///
/// `OutOfMemory` if there is none for the segments.
pub(crate) fn look(
    alloc: Global,
    zone: &Zone,
    spans: &[DaySpan],
    window: Window,
    moment: Moment,
) -> Result<Found, OutOfMemory>
    requires { window.till ≤ moment + 86_400 }
    ensures due { IfOk result (λ l. l.due.items ≡ due_of zone.now spans.now window.from window.till moment) }
    ensures next { IfOk result (λ l. IsQuiet zone.now spans.now (window.till + 1) moment l.next) }
    ensures none { IfOk result (λ l. l.due.items ≡ [] → IsQuiet zone.now spans.now window.from moment l.next) }
{
    let segments = around(alloc, zone, spans, moment)?;
    let next = least_start(&segments, window.till, horizon(moment));
    let due = due_among(alloc, &segments, window, moment)?;
    Ok(Found { due, next })
}

/// No segment of a day behind those around a moment begins before this second.
fn horizon(moment: Moment) -> u64
    ensures { result ≡ horizon_of moment }
{
    (moment.secs() / 86_400 + 5) * 86_400 - 93_599
}

/// The least start after a second of those that aren't after another, which is given otherwise.
fn least_start(segments: &[Segment], after: u64, most: u64) -> u64
    ensures { result ≡ least_of after most segments.now }
{
    let mut least = most;
    for segment in segments {
        let start = segment.start.secs();
        if after < start && start < least {
            least = start;
        }
    }
    least
}

/// Those that are due, by their starts.
fn due_among(
    alloc: Global,
    segments: &[Segment],
    window: Window,
    moment: Moment,
) -> Result<Vec<Segment>, OutOfMemory>
    ensures { IfOk result (λ v. v.items ≡ in_order (filter (is_segment_due window.from window.till moment) segments.now)) }
{
    let mut due = Vec::new(alloc);
    for segment in segments {
        if is_due(*segment, window, moment) {
            due.push(*segment)?;
        }
    }
    by_start(due)
}

fn is_due(segment: Segment, window: Window, moment: Moment) -> bool
    ensures { result ≡ is_segment_due window.from window.till moment segment }
{
    let start = segment.start.secs();
    window.from <= start && (start <= window.till && moment < segment.end)
}

/// Segments by their starts; those of one start stay in their order.
fn by_start(segments: Vec<Segment>) -> Result<Vec<Segment>, OutOfMemory>
    ensures { IfOk result (λ v. v.items ≡ in_order segments.items) }
{
    let mut sorted = segments;
    sorted.sort_by_key(|segment| segment.start.secs())?;
    Ok(sorted)
}
