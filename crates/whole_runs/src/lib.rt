//! Whole runs over a site: its log, on which downtimes recur if that is asked for, and what a query is answered once a script is over.
//!
//! In reading order: recurring downtimes as the feed of a run (`feeding`), the log of a site (`logs`), output that is dropped (`muted`), the
//! answer to a query (`querying`), and what is known of both (`laws`).
#![tactic(auto)]

mod feeding;
mod laws;
mod logs;
mod muted;
mod querying;

pub use feeding::RecurFeed;
pub use laws::{a_site_log_is_one, a_zone_file_decides_what_recurs, an_answer_is_one};
pub use logs::write_site_log;
pub use querying::query_turns;
