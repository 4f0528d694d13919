//! Keys of the tasks of a commit: bytes that are the same exactly for tasks that are the same but for numbers and places.
//!
//! The definitions in `specs/` are, in reading order, the keys of numbers and texts (`Keys`), of operators, trees and syntax (`Operators`,
//! `TreeKeys`, `SyntaxKeys`), of values (`ValueKeys`), of what a load leaves (`LoadKeys`), and of tasks (`TaskKeys`). What they tell is said by laws
//! (`laws`), functions without parameters. The code writes them: a key that grows (`key`), operators (`operators`), expressions (`exprs`),
//! statements (`stmts`), and values (`values`).
#![tactic(auto)]

mod exprs;
mod key;
mod laws;
mod operators;
mod stmts;
mod values;

pub use exprs::push_func;
pub use key::Key;
pub use laws::{keys_tell_loads, keys_tell_tasks};
pub use stmts::{push_each, push_statements};
pub use values::{push_pairs, push_value, push_values};
