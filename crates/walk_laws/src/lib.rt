//! Laws of the walk over the files of a site, as a tree of inclusions.
//!
//! There is no code here that runs: the functions have no parameters, and their contracts are laws of the definitions in site_conf. The words
//! of these laws stand in `specs/`: the inclusions of a site in preorder, and what is told of them (`Visits`).
#![tactic(auto)]

mod laws;

pub use laws::faults_of_inclusions_are_told_in_preorder;
