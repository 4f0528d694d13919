//! Laws of the logs that the program writes: those of `replay` and `daemon` are legal.
//!
//! In reading order: these laws, and what of a site in memory they rest on (`texts`). No code here runs in the program: the laws have no parameters,
//! and their contracts are laws of the definitions of other crates.
#![tactic(auto)]

mod laws;
mod texts;

pub use laws::{sites_of_files_can_be_run, written_logs_are_legal};
pub use texts::ready_site_is_in_memory;
