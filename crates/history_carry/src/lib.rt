//! The histories of a site's checkables, carried over to another site.
//!
//! In reading order: things that are found by their names (`named`), where those of one site stand in another one (`moves`), entries as
//! the other site has them (`entries`), its checkables with them (`carrying`), and two worked examples (`examples`).
#![tactic(auto)]

mod carrying;
mod entries;
mod examples;
mod moves;
mod named;

pub use carrying::carry;
pub use examples::{a_host_goes_and_one_comes, two_hosts_change_places};
