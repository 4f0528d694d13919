//! The parts that statements are made of: none of them leads back into expressions or statements.
//!
//! Which statement stands where (`leads`), then what statements are made of their parts: targets and assignments, loops, the arms
//! of an `if`, objects, apply rules and inclusions.
#![tactic(auto)]

pub mod applies;
pub mod assignments;
pub mod choices;
pub mod inclusions;
pub mod leads;
pub mod loops;
pub mod objects;
pub mod targets;
pub mod worded;
