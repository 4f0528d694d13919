//! Objects that get into groups: the names of groups, added to an object's `groups`.
//!
//! In reading order: names in a list (`listing`), a pair in a dictionary (`putting`), an object with more groups
//! (`growing`). What it has to come to is `grown` (commit_meaning), which a law says in words of its own (`laws`).
#![tactic(auto)]

mod growing;
mod laws;
mod listing;
mod putting;

pub use growing::grow;
pub use laws::objects_join_groups_once;
