//! Laws of whole commits: nothing that a load registered is lost, no two items of a wave have one number, and objects that are as they
//! should be have no faults.
//!
//! There is no code here that runs: the functions have no parameters, and their contracts are laws of the definitions in commit_meaning.
//! The words of these laws stand in `specs/`: what is true of all that a load registers (`Registered`), what a wave makes and tells
//! (`Accounts`), what becomes of each task in a whole commit (`Fates`), and how items, objects and targets are numbered (`Numbering`).
#![tactic(auto)]

mod laws;

pub use laws::{
    a_commit_loses_nothing, a_commit_of_files_loses_nothing, a_load_registers_by_types,
    a_load_takes_all_types, a_wave_loses_nothing, a_world_answers_every_task, numbers_rise,
    objects_that_stand_have_no_faults,
};
