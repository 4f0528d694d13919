//! The downtimes of one checkable.
//!
//! A book takes the downtimes of one host or service as they are added, the check results as they
//! come and the cancels, and answers which downtime is in effect at a moment. Its rules are those
//! of the Icinga 2 documentation, chapter "Advanced Topics", section "Downtimes":
//!
//! - A fixed downtime is in effect from its start to its end.
//! - A flexible downtime waits for a problem between its start and its end. The first problem
//!   result there triggers it, and from that moment on it is in effect for its duration, also past
//!   its end.
//!
//! This project's own, and no statement about Icinga 2:
//!
//! - Spans are half open: a downtime isn't in effect at its end, and a result at its end doesn't
//!   trigger it. So it is with the end of a duration.
//! - A flexible downtime is triggered only by a problem result that comes after it was added.
//! - Where several are in effect, the one that is named starts first, and among those it has the
//!   least number.
//!
//! Downtimes that another downtime triggers, and recurring ones, are none of this crate's.
//!
//! In reading order: what a downtime is, what comes first of several, how a list of them is kept, a
//! sorted run, several runs, and the book.
#![tactic(auto)]

mod book;
mod downtime;
mod firsts;
mod keeping;
mod kind;
mod no_downtime;
mod placed;
mod rank;
mod runs;
mod sorted_run;

pub use book::Book;
pub use no_downtime::NoDowntime;
