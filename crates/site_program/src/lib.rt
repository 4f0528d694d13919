//! The program over any files, world and sink: what is written for the words of a command line.
//!
//! In reading order: who makes the objects of a configuration (`committers`), what is remarked of a site (`remarked`), the objects of a
//! configuration (`config`), the log of a script (`replay`) and of the world (`daemon`), the answer to a query (`query`), the state file of
//! what a script leaves (`keep`), the verdict on a log (`audit`), and the counts of a generated site (`generate`). `running` does what is
//! asked for with one worker, `many` with as many as are asked for, and both end with a `Status`; `laws` says what is known of that.
#![tactic(auto)]

mod audit;
mod committers;
mod config;
mod daemon;
mod generate;
mod keep;
mod laws;
mod many;
mod query;
mod remarked;
mod replay;
mod running;

pub use laws::{answers_are_one, calm_runs_write_their_answer};
pub use many::run;
pub use running::run_one;
pub use site_replies::{Remark, Remarks};
pub use site_run::Status;
