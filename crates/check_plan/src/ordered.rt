// A check that is ordered.

/// An order of a check: its number, which no other order of a run has, and the checkable of this index.
#[derive(Clone, Copy, PartialEq, Eq)]
pub struct Ordered {
    pub number: u64,
    pub checkable: u32,
}
