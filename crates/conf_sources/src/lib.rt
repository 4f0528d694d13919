//! What the files of a configuration are named, and what one of them comes to when it is read.
//!
//! In reading order: the parts of names (`names`), the statements that include others (`inclusion`, `inclusions`) and what they
//! name (`source`, `known`, `listings`, `naming`), many of these with their places (`sources`), the built-in library (`library`), and
//! what a file comes to when it is read (`holding`, `kept`, `load_fault`, `reading`).
#![tactic(auto)]

pub mod holding;
pub mod inclusion;
mod inclusions;
pub mod kept;
pub mod known;
mod library;
pub mod listings;
mod load_fault;
mod names;
pub mod naming;
pub mod reading;
pub mod source;
pub mod sources;

pub use load_fault::LoadFault;
