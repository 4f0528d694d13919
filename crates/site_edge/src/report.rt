// Reports of orders.
use site_base::Blob;

/// What a check program gave for an order.
#[derive(Clone, Drop, PartialEq, Eq)]
pub struct Report {
    /// The number of the order.
    pub order: u64,
    /// The exit status of the program.
    pub status: u8,
    /// What the program wrote, which may be no text.
    pub output: Blob,
}
