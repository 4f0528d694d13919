//! The grammar of the configuration language and its laws, with no code that reads by it.
//!
//! The definitions stand in `specs/`, in reading order: the sorts of tokens (`Codes`), the operators (`Operators`), small
//! forms of grammars (`Terms`), the grammar, production by production (`Grammar`), reading by it (`Reading`), what tokens are
//! files and where others go wrong (`Files`), rows and assignments as the language's table has them (`Table`), and what a
//! parser gives (`Parsing`). Then the laws of files and of these productions (`laws`), and why tokens have no tree.
#![tactic(auto)]

mod laws;
mod parse_error;

pub use laws::{
    arrays_are_expressions_between_commas, assignments_lead_to_targets, files_have_one_outcome,
    heads_stand_once_in_either_order, ifs_are_arms_and_one_else,
    rows_are_things_between_separators, tokens_have_one_tree,
};
pub use parse_error::ParseError;
