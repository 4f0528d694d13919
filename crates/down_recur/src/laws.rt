// What it means that lines are given.
ghost use Rattle.down_recur.specs.Examples.{ADayAhead, AWeekLater};
ghost use Rattle.down_recur.specs.Laws.{AreGivenInOrder, AreNew, IsGivenOnce};
ghost use Rattle.down_recur.specs.Readback.{AreBookings, LinesTell};

/// Over turns whose moments don't fall each segment of an object is given at the first turn at which it may be and at no other: where it begins
/// within a day and isn't over, or, if it is triggered, has begun and isn't over and the trigger has a downtime in effect. Those of one turn
/// go by their starts.
pub fn segments_are_given_once()
    ensures once { IsGivenOnce }
    ensures order { AreGivenInOrder }
{}

/// The line of a downtime reads as that downtime of the checkable that its names are of; of a flexible one without a duration as `BadSpan`.
/// What segments give are such downtimes.
pub fn lines_tell_downtimes()
    ensures tell { LinesTell }
    ensures bookings { AreBookings }
{}

/// What recurs on a site begins with nothing given, and its names can stand in a line.
pub fn recurrings_begin_anew()
    ensures { AreNew }
{}

/// Segments of a date and of a day of the week, as they are calculated.
pub fn segments_are_worked_out()
    ensures date { ADayAhead }
    ensures weekday { AWeekLater }
{}
