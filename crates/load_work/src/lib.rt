//! The steps of a load that evaluate no part.
//!
//! In reading order: which statements have a place in which task, and the templates that are imported (`admitting`), the types of
//! objects (`types`), what a load registers (`registering`), and the order of the walk, while a load goes through it (`order`).
#![tactic(auto)]

mod admitting;
mod order;
mod registering;
mod types;

pub use admitting::{Imported, at_load, define, imported_template, in_item};
pub use order::{Around, begin_part, end_part, next_in_order};
pub use registering::{
    add_item, add_rule, add_template, has_assign, is_good_name, object_name, rule_name,
    set_constant,
};
