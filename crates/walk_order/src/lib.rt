//! The order of a walk over files: whose statements take effect when.
//!
//! A walk over files and what goes over their trees later share this form of it (`specs/Orders`).
#![tactic(auto)]

mod including;

pub use including::is_inclusion;
