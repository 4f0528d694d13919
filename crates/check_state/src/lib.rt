//! The state of one host or service, as its results and commands make it.
//!
//! In reading order: what a status means (`states`), how long an acknowledgement lasts (`acks`), how
//! much the state changed lately (`changes`), and the running status of a checkable (`status`).
#![tactic(auto)]

mod acks;
mod changes;
mod states;
mod status;

pub use states::is_problem;
pub use status::Status;
