//! Rules at their targets.
//!
//! In reading order: targets (`target`), their own names (`own_name`), the attributes that an instance has from the start
//! (`preset_keys`, `presets`), the instances of elements and their items (`instance`), what many of these share of their target (`sharing`),
//! which of them are kept (`keeping`), the evaluation of a rule (`evaluation`), and what it comes to (`rule_answer`, `rules`). What they have
//! to come to is `instances` (commit_meaning), in words in docs/OBJECTS.md.
#![tactic(auto)]

mod evaluation;
mod instance;
mod keeping;
mod own_name;
mod preset_keys;
mod presets;
mod rule_answer;
mod rules;
mod sharing;
mod target;

pub use instance::Instance;
pub use preset_keys::PresetKeys;
pub use rule_answer::RuleAnswer;
pub use rules::instances;
pub use target::{PreparedTarget, Target};
