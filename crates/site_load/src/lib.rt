//! A configuration from its files: the load, and what its commit comes to.
//!
//! In reading order: the files of a walk as the load takes them (`source_files`), the file of the zone (`zone_file`), the load
//! (`loading`), load and commit together (`config`), and these with the apply rules that make no object (`idle`, `made`), also by
//! many workers (`many`). In words it is docs/LANGUAGE.md and docs/OBJECTS.md.
#![tactic(auto)]

mod config;
mod idle;
mod load_answer;
mod loading;
mod made;
mod many;
mod source_files;
mod zone_file;

pub use config::config_answer;
pub use load_answer::LoadAnswer;
pub use loading::load;
pub use made::{Made, config_made};
pub use many::{config_answer_by_many, config_made_by_many};
