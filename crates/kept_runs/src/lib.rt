//! The state file of what the turns of a script leave over a site.
//!
//! In reading order: the lines of entries of turns by checkable (`gathering`), the state file (`keeping`), and what is known of it (`laws`).
#![tactic(auto)]

mod gathering;
mod keeping;
mod laws;

pub use keeping::keep_turns;
pub use laws::a_state_file_is_one;
