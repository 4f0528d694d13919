//! The front of the tokens: the next one, what begins with it, and why no more is read.
#![tactic(auto)]

pub mod begins;
pub mod next;
pub mod stop;
