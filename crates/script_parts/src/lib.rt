//! Scripts that several threads read.
//!
//! In reading order: where a script is cut (`cutting`), and how its parts are read and joined (`reading`).
#![tactic(auto)]

mod cutting;
mod reading;

pub use reading::read_script_by_many;
