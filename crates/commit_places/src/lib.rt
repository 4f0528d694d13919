//! Laws of places in commits: what is committed, and what is wrong, doesn't depend on where the syntax of a site stands.
//!
//! There is no code here that runs: the functions have no parameters, and their contracts are laws of the definitions in commit_meaning, which
//! stand on those of evaluations (place_laws). The words of these laws stand in `specs/`: answers and commits at other places
//! (`MovedAnswers`), what is the same but for places (`Alike`), and the items of the worked examples (`Examples`).
#![tactic(auto)]

mod examples;
mod laws;

pub use examples::a_host_in_two_lines;
pub use laws::{
    answers_at_other_places, commits_at_other_places, lines_and_columns_change_no_object,
    places_change_no_object,
};
