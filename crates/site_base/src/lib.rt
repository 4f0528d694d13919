//! The plain values that every layer of the program speaks of.
//!
//! In reading order: the one error of memory, texts and lists, numbers and moments, places and
//! diagnostics, the trees that objects are made of, and time periods.
#![tactic(auto)]

mod characters;
mod copying;
mod day;
mod day_span;
mod diag;
mod diag_kind;
mod item_no;
mod memory;
mod moment;
mod num;
mod period_spec;
mod place;
mod quoting;
mod reading;
mod row;
mod short;
mod target_no;
mod text;
mod tree;

pub use characters::first_character;
pub use copying::copy_tree;
pub use day::Day;
pub use day_span::{DaySpan, Ranges};
pub use diag::{Diag, Diags};
pub use diag_kind::DiagKind;
pub use item_no::ItemNo;
pub use memory::OutOfMemory;
pub use moment::Moment;
pub use num::Num;
pub use period_spec::PeriodSpec;
pub use place::Place;
pub use quoting::{push_quoted, quote};
pub use row::{Blob, Row, Texts};
pub use target_no::TargetNo;
pub use text::Text;
pub use tree::Tree;
