// Spans of time ranges.
use crate::{Day, Row};

/// A span of a day, in seconds of the local day: from `from` on, and before `to`.
#[derive(Clone, Copy, PartialEq, Eq)]
pub struct DaySpan {
    pub day: Day,
    pub from: u32,
    /// At most 86,400, the day's end.
    pub to: u32,
}

/// The spans of a time period, in the order in which they were written.
pub type Ranges = Row<DaySpan>;
