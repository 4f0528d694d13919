// The downtimes of segments.
ghost use Rattle.std.specs.Prelude.{◌≡◌};
ghost use Rattle.down_recur.specs.Bookings.{booking_by, end_after as end_of, plain_booking, triggered_booking};

use crate::{Recurring, Segment};
use site_base::Moment;

/// A downtime that a segment gives.
#[derive(Clone, Copy)]
pub struct Booking {
    pub start: Moment,
    pub end: Moment,
    pub fixed: bool,
    /// Seconds; 0 for a fixed one.
    pub duration: u64,
}

impl Booking {
    /// The downtime of a segment that is given at a moment: over the whole segment, or from the moment on where it is triggered.
    pub fn of(recurring: &Recurring, moment: Moment, segment: Segment) -> Booking
        ensures { result ≡ booking_by recurring.now.trigger recurring.now moment segment }
    {
        match recurring.trigger {
            None => Booking::plain(recurring, segment),
            Some(_) => Booking::triggered(recurring, moment, segment),
        }
    }

    fn plain(recurring: &Recurring, segment: Segment) -> Booking
        ensures { result ≡ plain_booking recurring.now segment }
    {
        Booking {
            start: segment.start,
            end: segment.end,
            fixed: !recurring.flexible,
            duration: if recurring.flexible {
                recurring.duration
            } else {
                0
            },
        }
    }

    fn triggered(recurring: &Recurring, moment: Moment, segment: Segment) -> Booking
        ensures { result ≡ triggered_booking recurring.now moment segment }
    {
        Booking {
            start: moment,
            end: end_after(moment, recurring.duration, segment),
            fixed: true,
            duration: 0,
        }
    }
}

/// When a downtime ends that began at a moment.
fn end_after(moment: Moment, duration: u64, segment: Segment) -> Moment
    ensures { result ≡ end_of moment duration segment }
{
    if duration == 0 {
        segment.end
    } else {
        moment.later(duration)
    }
}
