//! The state file of a site: the entries of its checkables as JSON text, and the checkables that are restored of it.
//!
//! In reading order: the lines of entries (`saved_lines`), and the state file of a site (`saving`); why bytes are none (`keep_error`); the
//! checkables that a text names (`in_order`), by its tokens (`tokens`) and the lines of their entries (`lines`), where its members stand in
//! the order in which they are written; those of any other text (`any_order`), by the parts of its JSON value (`shape`, `entries`); the
//! places into which either puts them (`slots`), and all checkables of a site (`restoring`).
#![tactic(auto)]

mod any_order;
mod entries;
mod in_order;
mod keep_error;
mod lines;
mod restoring;
mod saved_lines;
mod saving;
mod shape;
mod slots;
mod tokens;

pub use keep_error::KeepError;
pub use restoring::restore;
pub use saved_lines::SavedLines;
pub use saving::save;
