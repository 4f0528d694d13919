//! The load of a site's files: what their statements register.
//!
//! In reading order: the names that are there from the start (`first_names`), what an evaluation of files begins with
//! (`starting`), what is left at the end (`load_parts`), and the load (`loading`).
#![tactic(auto)]

mod first_names;
mod load_parts;
mod loading;
mod starting;

pub use load_parts::{LoadParts, parts_of};
pub use loading::{eval_files, run_files};
