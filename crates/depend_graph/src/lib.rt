//! Dependencies: on which checkables one depends, and whether one is reachable for checks and for notifications
//! (Icinga 2 documentation, Monitoring Basics, "Dependencies").
//!
//! In reading order: lists of numbers (`lists`), the parents of each checkable (`parents`), all that stands above it (`search`), lists
//! turned round and put in order (`order`), dependencies on a cycle (`cycles`, and `on_cycle` where no graph is needed) and in redundancy
//! groups (`teams`), and the graph that is made of all this (`graph`); then where its ancestors stand (`positions`), what is known where it is to be reached (`outlook`), and what holds
//! it back (`reaching`).
#![tactic(auto)]

mod clearing;
mod graph;
mod graph_fault;
mod laws;
mod lists;
mod on_cycle;
mod outlook;
mod parents;
mod positions;
mod purpose;
mod reach;
mod reaching;
mod search;
mod teams;

pub use graph::Graph;
pub use graph_fault::GraphFault;
pub use laws::a_sound_site_has_parents;
pub use on_cycle::depends_on_cycles;
pub use purpose::Purpose;
pub use reach::Reach;
