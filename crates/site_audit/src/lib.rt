//! Logs that are checked: whether a log is one that a run can write.
//!
//! In reading order: the lines and blocks of a log (`blocks`), what a line tells (`log_line`, `fields`, `lines`), and a block (`block`);
//! the command lines that entries tell (`commands`), what an entry tells at all (`telling`), and all of a block (`hearing`), each of which
//! stands on tracks (`spots`); in which order things on tracks are taken (`tracks`), as things are of which some must stand before others
//! (`order`); command lines that are refused (`refused`), the lines of a turn (`filling`), and what is said in told order (`picking`); the turn
//! that a block tells (`told`), also with the round of its callers (`rounds`), and those of a log (`turns`); how far a log is that of a run
//! over given turns (`agreeing`), whether it is one at all (`auditing`), and the laws of this (`laws`).
#![tactic(auto)]

mod agreeing;
mod auditing;
mod block;
mod blocks;
mod commands;
mod fields;
mod filling;
mod hearing;
mod laws;
mod lines;
mod log_line;
mod order;
mod picking;
mod refused;
mod rounds;
mod spots;
mod telling;
mod told;
mod tracks;
mod turns;

pub use auditing::{Verdict, audit};
