//! The turn lock: one machine that many callers step, each event in one history.
//!
//! A [`Post`] keeps a machine's state under one lock. Callers draw tickets and are served in the order
//! of these. Each event that a caller brings adds one entry to the history, and the caller's [`Pass`]
//! knows the history so far and which of its entries are its own.
#![tactic(auto)]

// what a machine is, and where a caller may be held up
mod gate;
mod machine;

// the state with its history, what callers know of it, and the rule of the table that holds it
mod body;
mod pass;
mod turns;

// the post
mod post;

pub use body::{Receipt, Refused};
pub use gate::{Gate, GatePoint, OpenGate};
pub use machine::Machine;
pub use pass::Pass;
pub use post::Post;
