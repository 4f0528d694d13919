//! One item, from its body to its object or to what is wrong with it.
//!
//! In reading order: what an item comes to (`item_answer`), its evaluation (`body`), the full names of objects
//! (`full_name`), and all of it (`item`). What it has to come to is `item_answer` (commit_meaning), in words in docs/OBJECTS.md.
#![tactic(auto)]

mod body;
mod full_name;
mod item;
mod item_answer;

pub use body::{BoundNames, begin_body};
pub use item::{run_bound, run_item};
pub use item_answer::ItemAnswer;
