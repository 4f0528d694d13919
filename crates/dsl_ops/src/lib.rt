//! The operators on the values of the configuration language.
//!
//! In reading order: the faults (`op_fault`), what operators see of a value (`operand`) and what they make
//! (`made`), the truth of a value (`truths`), numbers (`arithmetic`), whole numbers (`bits`), the order of
//! values (`comparison`), what `+` joins (`joining`, `merge`), what an array has (`membership`, `seen`), and the
//! operators by their names (`before`, `between`). Members and indexes stand in `members`, and laws of the
//! operators' definitions in `laws`.
#![tactic(auto)]

mod arithmetic;
mod before;
mod between;
mod bits;
mod comparison;
mod joining;
mod laws;
mod made;
mod member_fault;
mod members;
mod membership;
mod merge;
mod op_fault;
mod operand;
mod seen;
mod truths;

pub use before::unary;
pub use between::{binary, binary_within};
pub use laws::{equal_elements_go, right_keys_win, shifts_round_down};
pub use member_fault::MemberFault;
pub use members::{member, set_member};
pub use op_fault::OpFault;
pub use seen::{Seen, seen_of};
pub use truths::truth;
