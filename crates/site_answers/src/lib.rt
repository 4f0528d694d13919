//! What is written over a site that stands: for a script, for the turns of the world, for a query, and as a state file.
//!
//! In reading order: the entries before the first turn (`before`), the log of a script (`replay`) and of the world (`watch`), more turns than may
//! be taken (`spent`), the answer to a query (`query`), and the state file of what a script leaves (`keep`).
#![tactic(auto)]

mod before;
mod keep;
mod query;
mod replay;
mod spent;
mod watch;

pub use keep::keep_site;
pub use query::query_site;
pub use replay::replay_site;
pub use watch::watch_site;
