//! The words of a check's command: what its macros stand for, and which of its arguments it gets.
//!
//! In reading order: what can go wrong; where macros are looked up (`scope`, `lookups`), what a text or a value becomes of
//! them (`texts`), which arguments are kept (`truth`), their order (`orders`, with its law in `laws`), their words (`values`,
//! `arguments`), and the command as a whole (`commands`).
#![tactic(auto)]

mod arguments;
mod commands;
mod cutting;
mod laws;
mod lookups;
mod macro_error;
mod orders;
mod scope;
mod stop;
mod texts;
mod truth;
mod values;

pub use commands::resolve;
pub use laws::arguments_stand_in_order;
pub use macro_error::MacroError;
