//! When each checkable of a site is to be checked next (Icinga 2 documentation, Object Types, "Host", `check_interval` and
//! `retry_interval`).
//!
//! In reading order: what is kept of one checkable, and how an entry changes it (`watch`), and what is kept of all of them, with a
//! wheel that finds which one is due first (`watches`).
#![tactic(auto)]

mod watch;
mod watches;

pub use watch::Watch;
pub use watches::Watches;
