//! Replies as what a run writes: how they are written (`output`).
#![tactic(auto)]

mod output;

pub use output::{write_made, write_reply};
