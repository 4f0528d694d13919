//! Command lines: what a person or a program tells of a host or a service, as text.
//!
//! In reading order: the commands and their names (`command`), what they ask for and with which fields (`kind`, `limit`), what can be
//! wrong with a line, and how a line is read.
#![tactic(auto)]

mod command;
mod cutting;
mod events;
mod fields;
mod kind;
mod limit;
mod line_error;
mod line_fault;
mod lookups;
mod naming;
mod numbers;
mod reading;

pub use command::Command;
pub use line_error::LineError;
pub use line_fault::LineFault;
pub use reading::read_line;
