//! A host or a service with its history: each event makes its next entry, by what the entries before it left.
//!
//! In reading order: what an event makes before anything is decided (`draft`, `stepping`), what it does to downtimes
//! (`downtimes`), what is kept of entries (`running`), how far the ancestors were seen (`sights`) and what is decided on
//! notifications (`deciding`); the checkable (`checkable`), the entry that an event makes of it
//! (`applying`), and which entries make one again (`histories`, `restoring`, `restore_fault`), which `laws` tells of those that
//! are made; and the checkable as the machine of a turn lock (`deed`, `machine`, `machine_laws`).
#![tactic(auto)]

mod applying;
mod checkable;
mod deciding;
mod deed;
mod downtimes;
mod draft;
mod histories;
mod laws;
mod machine;
mod machine_laws;
mod restore_fault;
mod restoring;
mod running;
mod sights;
mod stepping;

pub use checkable::Checkable;
pub use deed::Deed;
pub use histories::{is_entry_of, is_history};
pub use laws::made_entries_go_on_with_histories;
pub use machine::SiteMachine;
pub use machine_laws::entries_of_a_post_stand_behind;
pub use restore_fault::RestoreFault;
