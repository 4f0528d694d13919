//! The texts that the program writes, the lines of the listing, of diagnostics and of entries; and the
//! scripts that it reads.
#![tactic(auto)]

mod decimals;
mod decisions;
mod diags;
mod entries;
mod events;
mod line;
mod objects;
mod script_error;
mod script_line;
mod script_lines;
mod scripts;
mod site_names;
mod unquoting;
mod walk;

pub use decimals::read_whole;
pub use decisions::kind_name;
pub use diags::print_diag;
pub use entries::{print_entry, push_entry, state_name};
pub use line::Line;
pub use objects::print_object;
pub use script_error::ScriptError;
pub use scripts::read_script;
pub use site_names::push_checkable;
pub use unquoting::read_quoted;
