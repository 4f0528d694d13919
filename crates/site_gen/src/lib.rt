//! A generated site and its run: hosts in a tree of dependencies, each with a service and a notification, of which six turns bring the
//! results.
//!
//! In reading order: the one file of the site (`root`), its turns (`turns`), what is counted of a run (`counts`), how it is counted
//! (`counting`), the run (`running`), and the lines that tell the counts (`lines`).
#![tactic(auto)]

mod counting;
mod counts;
mod lines;
mod root;
mod running;
mod turns;

pub use counts::Counts;
pub use lines::lines_of;
pub use root::root_text;
pub use running::count_run;
pub use turns::turn_of;
