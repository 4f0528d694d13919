// What is counted of a run.

/// What is counted of a run.
#[derive(Clone, Copy, PartialEq, Eq)]
pub struct Counts {
    pub entries: u64,
    /// The notifications that were sent.
    pub sent: u64,
    /// Those that were held back.
    pub suppressed: u64,
    /// The checks that were ordered.
    pub orders: u64,
}
