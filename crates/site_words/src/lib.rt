//! What the words of a command line ask the program to do.
//!
//! In reading order: what can be asked for (`task`), what a command's own words ask for (`words`), the options that stand before and behind
//! them (`options`), and both (`command`).
#![tactic(auto)]

mod command;
mod options;
mod task;
mod words;

pub use command::{Command, command_of};
pub use task::Task;
