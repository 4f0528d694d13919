//! The steps of an evaluation that evaluate no part and go by names.
//!
//! In reading order: names and what is called under them (`names`), reads of committed objects (`objects`), assignments (`targets`),
//! and functions that are called, with the names that their frames begin with (`calling`).
#![tactic(auto)]

mod calling;
mod names;
mod objects;
mod targets;

pub use calling::{call_locals, function_of, takes, thrown};
pub use names::{called_member, called_name, called_part, name_value, named_fault};
pub use objects::{find_object, is_absent, read_host, read_of_host, read_service};
pub use targets::{assign, put_in, put_member};
