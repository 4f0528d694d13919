//! Objects as rows of tables write them.
//!
//! An object is a head and a tree. A head is `NUMBER TYPE NAME`: the number of the object's item, its type and its full name.
//! The object stands in the line of its number: in the first of two files where that is even, and in the second where it
//! is odd.
#![tactic(auto)]

mod objects;
mod placed;

pub use objects::{number_of, object_of};
pub use placed::are_placed;
