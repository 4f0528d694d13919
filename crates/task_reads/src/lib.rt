//! What the tasks of a commit read of the objects that stand before their wave.
//!
//! A task is an item, a rule at a target, or an object that groups may take. In reading order: who evaluates tasks (`baker`), a read
//! with what it found (`look`), what a task was told so far (`told`), the answers of tasks with their reads (`items`, `pairs`, `members`),
//! and whether reads find the same in another world (`equality`, `alike`). Which reads a task has, and that an answer stays the same where they find the
//! same, is said in `specs/` and in kept_tasks.
#![tactic(auto)]

mod alike;
mod baker;
mod equality;
mod items;
mod look;
mod members;
mod pairs;
mod task_no;
mod told;

pub use alike::find_alike;
pub use baker::{Baker, PlainBaker};
pub use items::item_with_reads;
pub use look::Look;
pub use members::member_with_reads;
pub use pairs::pair_with_reads;
pub use task_no::{TaskKind, TaskNo};
