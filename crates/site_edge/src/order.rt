// Orders of checks.
use site_base::Texts;

/// A check program that is to be run.
#[derive(Clone, Drop, PartialEq, Eq)]
pub struct Order {
    /// By this number the report names the order. Orders are numbered from 1 over a whole run.
    pub number: u64,
    /// The program and its arguments.
    pub argv: Texts,
}
