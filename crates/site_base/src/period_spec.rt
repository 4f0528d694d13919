// Time periods.
use crate::{Ranges, Row};

/// A `TimePeriod`: its own spans, and those of the periods that it includes and excludes.
#[derive(Clone, Drop, PartialEq, Eq)]
pub struct PeriodSpec {
    pub own: Ranges,
    pub includes: Row<Ranges>,
    pub excludes: Row<Ranges>,
    /// Whether a moment that is both included and excluded is inside.
    pub prefer_includes: bool,
}
