//! What the program replies.
//!
//! In reading order: the objects of a configuration, and diagnostics (`replies`); what is remarked of a site that can be run (`remarks`),
//! and where that is told (`telling`).
#![tactic(auto)]

mod remarks;
mod replies;
mod telling;

pub use remarks::{Lack, Remark, remarks_of};
pub use replies::{
    Reply, Shown, bad_query, bad_script, bad_state, count_listed, diagnoses, no_file,
    reply_to_config,
};
pub use telling::{Remarks, tell_all};
