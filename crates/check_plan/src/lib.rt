//! Which checks a turn orders (Icinga 2 documentation, Monitoring Basics, "Check Commands" and Advanced Topics, "Check
//! Scheduling"): what a round leaves of the watches, and which checkables that are due get an order.
//!
//! In reading order: an order (`ordered`), what is kept of all checks (`plan`), how it goes on by the entries of a round
//! (`following`), which of those that are due get an order (`held`), and the walk over them (`walk`).
#![tactic(auto)]

mod following;
mod held;
mod ordered;
mod plan;
mod walk;

pub use ordered::Ordered;
pub use plan::CheckPlan;
