//! Laws of places: what an evaluation comes to doesn't depend on where its syntax stands.
//!
//! There is no code here that runs: the functions have no parameters, and their contracts are laws of the definitions in eval_meaning. The words
//! of these laws stand in `specs/`: syntax at other places (`MovedSyntax`), and what an evaluation works on (`MovedStates`) and comes to
//! (`MovedOutcomes`) then; what is the same but for places (`Alike`); and the syntax of the worked examples (`Examples`).
#![tactic(auto)]

mod examples;
mod laws;

pub use examples::{a_sum_in_two_lines, a_template_twice_in_two_lines, an_object_in_two_files};
pub use laws::{
    evaluations_at_other_places, lines_and_columns_change_no_load, loads_at_other_places,
    places_change_no_value,
};
