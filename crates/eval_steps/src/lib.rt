//! What the evaluator does between the parts of a node.
//!
//! Nothing here leads back into an evaluation: each function is done once what it works on is evaluated, or before it is. In
//! reading order: how a node is entered (`nodes`), what members and captured names give (`values`), what is called (`calls`), the
//! methods that call a function for each element (`visits`), which statements are run (`statements`), how statements with an
//! expression end (`finishing`), turns of loops (`loops`), and what is registered (`registering`). The laws of its proofs are those
//! by which the evaluator is put together.
#![tactic(auto)]

mod calls;
mod finishing;
mod loops;
mod nodes;
mod registering;
mod statements;
mod values;
mod visits;

pub use calls::{Called, Prepared, parted, prepare};
pub use finishing::{Then, admit, finish};
pub use loops::{Turn, begin_turn, loop_end, turns_of};
pub use nodes::enter;
pub use registering::{Sort, register, rule_prefix};
pub use statements::{is_passed, statements_of};
pub use values::{member, or_named};
pub use visits::{Method, Visited, for_item, push_if, visit_of};
