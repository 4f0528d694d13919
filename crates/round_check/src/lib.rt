//! Whether entries that are told of are those of a round, whatever the number of its callers.
//!
//! In reading order: what is told of an entry (`told`), lists and counts by checkable (`shelf`), in which order entries are made
//! (`ordering`), the round that is made of what is told (`making`), the way of each caller through its events (`walking`), all of it
//! (`checking`), and the law of rounds that it stands on (`laws`).
#![tactic(auto)]

mod checking;
mod laws;
mod making;
mod ordering;
mod shelf;
mod told;
mod walking;

pub use checking::round_given;
pub use told::Told;
