//! Which checkables of a site show a problem that lasts, so that they are looked at again (Icinga 2 documentation, Monitoring Basics,
//! "Notifications", on the notifications that are sent again).
#![tactic(auto)]

mod following;
mod problems;

pub use problems::Problems;
