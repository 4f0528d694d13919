//! The items of a wave and its diagnostics, by their numbers.
//!
//! In reading order: what the items of a wave are before their turn (`pending`), those of them that the load registered
//! (`registered`), and things by number (`sorting`). What they have to come to is `wave_items` and `by_number` (commit_meaning).
#![tactic(auto)]

mod pending;
mod registered;
mod sorting;

pub use pending::Pending;
pub use registered::{Split, add_registered, is_in_wave, split_wave};
pub use sorting::{diags_by_number, items_by_number};
