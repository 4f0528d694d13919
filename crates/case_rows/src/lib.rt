//! Tables of cases: which lines of a table are rows, what a row is made of, and the marks in it.
#![tactic(auto)]

mod marks;
mod rows;

pub use marks::{bytes_of, push_marked, unmarked};
pub use rows::{ANSWER, is_row, row_of};
