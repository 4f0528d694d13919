// Cells.
use crate::{SortedPairs, Value};

/// What an array or a dictionary contains.
#[derive(Drop)]
pub enum Cell {
    Array(Vec<Value>),
    /// Distinct keys in byte order.
    Dict(SortedPairs),
}
