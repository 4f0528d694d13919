//! Which tasks of a commit keep the answers that they had in another commit, and that these are right.
//!
//! There is no code here that runs: the functions have no parameters, and their contracts are laws of the definitions in commit_meaning. They
//! stand on those of places (commit_places) and of the order (commit_order): what a task comes to depends on neither. The words of these
//! laws stand in `specs/`: what a task reads (`Reads`), what is left of it without numbers and places (`Bare`), and which tasks are kept
//! (`Kept`).
#![tactic(auto)]

mod laws;

pub use laws::{kept_tasks_answer_as_before, reads_are_told_by_answers, tasks_alike_answer_alike};
