//! How the turns of a run are read, and the text of its log in two versions.
//!
//! In reading order: the versions of a log (`style`), how its lines are written (`output`), and what is known of turns as they are
//! read (`laws`).
#![tactic(auto)]

mod laws;
mod output;
mod style;

pub use laws::{lines_ask_for_commands, scripts_keep_the_schedule, turns_are_read_in_one_way};
pub use output::write_lines;
pub use style::Style;
