//! Laws of files: what is committed stands in the files that were loaded.
//!
//! There is no code here that runs: the functions have no parameters, and their contracts are laws of the definitions in eval_meaning and
//! commit_meaning, which follow from those of other places (place_laws, commit_places).
#![tactic(auto)]

mod laws;

pub use laws::objects_stand_in_their_files;
