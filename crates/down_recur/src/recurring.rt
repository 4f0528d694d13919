// What recurs.
use site_base::{Ranges, Text};

/// What a `ScheduledDowntime` object gives again and again, and from where on.
#[derive(Drop)]
pub struct Recurring {
    pub host: Text,
    /// `None` for a downtime of the host.
    pub service: Option<Text>,
    pub author: Text,
    pub comment: Text,
    pub spans: Ranges,
    /// Whether `fixed` is false.
    pub flexible: bool,
    /// Seconds that a flexible or triggered downtime lasts, at most those of the greatest moment; 0 if the object has none.
    pub duration: u64,
    /// The checkable by whose downtimes it is triggered, by index; `None` if `vars.triggered_by` is no string.
    pub trigger: Option<u32>,
    /// Segments that begin before this second were given, or ended before others were.
    pub done: u64,
}
