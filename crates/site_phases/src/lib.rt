//! The last part of a commit: what is wrong with all objects of a configuration together, phase by phase, and the typed site
//! if nothing is (docs/OBJECTS.md, "The last phases").
//!
//! In reading order: the globals and the constants among them, dependencies on a cycle, and all phases.
#![tactic(auto)]

mod answer;
mod constants;
mod cycles;
mod globals;
mod laws;
mod phases;

pub use answer::Answer;
pub use globals::Globals;
pub use laws::{cycles_are_those_of_any_length, cycles_are_told_before_constants};
pub use phases::last_phases;
