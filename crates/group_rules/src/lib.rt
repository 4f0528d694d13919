//! The groups that take an object by their conditions.
//!
//! In reading order: what groups see of an object (`member`), which of them take it (`taking`), and what that comes to
//! (`group_answer`, `groups`). What they have to come to is `group_members` (commit_meaning), in words in docs/OBJECTS.md.
#![tactic(auto)]

mod group_answer;
mod groups;
mod member;
mod taking;

pub use group_answer::GroupAnswer;
pub use groups::group_members;
