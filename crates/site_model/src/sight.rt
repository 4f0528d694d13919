// How far a checkable was seen.

/// How much of another checkable's history was seen at an entry.
#[derive(Clone, Copy, PartialEq, Eq)]
pub struct Sight {
    /// Its index among the site's checkables.
    pub checkable: u32,
    /// The number of its entries that were seen.
    pub count: u64,
}
