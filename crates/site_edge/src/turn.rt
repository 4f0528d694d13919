// Turns of the world.
use crate::Report;
use site_base::{Blob, Moment, Row};

/// What the world hands in at one moment.
#[derive(Clone, Drop, PartialEq, Eq)]
pub struct Turn {
    pub moment: Moment,
    pub reports: Row<Report>,
    /// Command lines, which may be no text.
    pub lines: Row<Blob>,
}
