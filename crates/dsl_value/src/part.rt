// Cells and functions that lie side by side.
use crate::{Cell, Function};

/// Cells and functions, in the order in which they were made.
#[derive(Drop)]
pub(crate) struct Part {
    pub(crate) cells: Vec<Cell>,
    pub(crate) functions: Vec<Function>,
}
