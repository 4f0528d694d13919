//! Downtimes that recur: what `ScheduledDowntime` objects give at the turns of a run, as command lines (Icinga 2 documentation, Object Types,
//! "ScheduledDowntime", and Advanced Topics, "Recurring Downtimes").
//!
//! This project's own, and no statement about Icinga 2: a downtime is given a day ahead of its segment, and `vars.triggered_by` names the checkable by
//! whose downtimes an object's are triggered.
//!
//! In reading order: the segments of time ranges (`segment`), those around a moment (`around`) and those that are due (`looking`); what recurs
//! (`recurring`) and how it is read from a site (`reading`); the downtime of a segment (`booking`) and its line (`line`); a turn (`turn`), what
//! waits for its next segment (`waiting`), until when each rests (`rests`), all that waits (`walking`), and the feed (`recur`); and what it means
//! (`laws`).
#![tactic(auto)]

mod around;
mod booking;
mod laws;
mod line;
mod looking;
mod reading;
mod recur;
mod recurring;
mod rests;
mod segment;
mod turn;
mod waiting;
mod walking;

pub use booking::Booking;
pub use laws::{
    lines_tell_downtimes, recurrings_begin_anew, segments_are_given_once, segments_are_worked_out,
};
pub use recur::Recur;
pub use recurring::Recurring;
pub use segment::Segment;
