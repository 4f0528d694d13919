//! Where the evaluations of a commit begin: those of items, of rules and of groups.
//!
//! In reading order: the values of trees that are bound to names (`binding`), a work with a whole budget (`beginning`), the frame of
//! a body or of a rule's expressions (`framing`), the trees of values (`trees`), and the strings of attributes
//! (`strings`). `specs/Bound` says what binding gives, and `specs/Ready` what a view and a work have to be.
#![tactic(auto)]

mod beginning;
mod binding;
mod framing;
mod strings;
mod trees;

pub use beginning::begin;
pub use binding::{bind_tree, bind_trees};
pub use framing::enter_frame;
pub use strings::text_of;
pub use trees::{tree_at, trees_at};
