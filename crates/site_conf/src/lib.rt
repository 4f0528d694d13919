//! The configuration of a site: the walk over its files.
//!
//! In reading order: what stands at a moment of the walk (`progress`), one inclusion (`entering`), the walk itself (`walking`) and
//! what it comes to (`site_walk`, `walk_answer`), and what holds of it (`laws`).
#![tactic(auto)]

mod entering;
mod laws;
mod progress;
mod site_walk;
mod walk_answer;
mod walking;

pub use conf_sources::LoadFault;
pub use laws::{
    each_diagnostic_is_of_a_fault, each_file_has_its_tree_or_its_fault,
    faults_stand_in_walking_order, trees_are_those_of_their_files,
};
pub use site_walk::Walk;
pub use walk_answer::WalkAnswer;
pub use walking::walk;
