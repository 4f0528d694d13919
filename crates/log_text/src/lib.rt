//! The log of a run, in two versions, and how its entries are read back.
//!
//! In reading order: the lines of orders and turns, the lines of entries in version two, the names that
//! lines name things by, and how the line of an entry is read.
#![tactic(auto)]

mod decisions;
mod effects;
mod entries;
mod entry_error;
mod events;
mod fields;
mod heads;
mod orders;
mod outcomes;
mod printing;
mod sights;
mod site_names;

pub use entries::{read_entry, read_entry_two};
pub use entry_error::EntryError;
pub use orders::{print_missing, print_order, print_order_two, print_turn, version_line};
pub use printing::print_entry_two;
pub use site_names::SiteNames;
