//! Laws of the order in commits: what is committed doesn't depend on the order in which independent files are read.
//!
//! There is no code here that runs: the functions have no parameters, and their contracts are laws of the definitions in commit_meaning.
//! The words of these laws stand in `specs/`: lists in another order (`Reordered`), what is left without the numbers of statements
//! (`Unordered`), which loads, answers and commits are alike (`Alike`), and the loads of the worked examples (`Examples`).
#![tactic(auto)]

mod examples;
mod laws;

pub use examples::{groups_in_both_orders, two_files_in_both_orders};
pub use laws::{
    answers_look_names_up, numbers_change_no_answer, order_changes_no_object,
    order_of_files_changes_no_tree,
};
