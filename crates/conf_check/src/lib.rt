//! What is checked of a site's objects once all of them are made: that no two of one type have one full name, and that each
//! name in them is one of an object.
//!
//! Which attributes name objects, and of which type, the schema says (object_types).
//!
//! In reading order: which objects there are, and which were first; what is told; what one attribute names; then the duplicates and
//! the references of all objects by their numbers, both together, and what it means that there are none.
#![tactic(auto)]

mod all_duplicates;
mod all_references;
mod firsts;
mod keys;
mod laws;
mod names;
mod ordering;
mod together;
mod told;

pub use all_duplicates::duplicates;
pub use all_references::references;
pub use laws::objects_without_faults_stand;
pub use together::{Together, check_together};
