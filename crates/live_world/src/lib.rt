//! The real world: turns from the clock, lines from standard input, and check programs as child processes.
//!
//! In reading order: the first bytes of what comes piece by piece (`kept`), lines of bytes (`lines`), standard
//! input (`ready`, `input`), one check program from its start to its report (`exit`, `program`), the orders that
//! have no report yet (`running`, `waiting`, `reports`), what is told of those that are held up (`lasting`, `telling`), and the world
//! (`live_world`).
#![tactic(auto)]

mod exit;
mod input;
mod kept;
mod lasting;
mod lines;
mod live_world;
mod program;
mod ready;
mod reports;
mod running;
mod telling;
mod waiting;

pub use lines::lines_are_read;
pub use live_world::LiveWorld;
