//! The library of the configuration language: its functions, and the methods of texts, arrays and
//! dictionaries.
#![tactic(auto)]

mod acts;
mod answers;
mod args;
mod arrays;
mod call;
mod characters;
mod cutting;
mod dicts;
mod distinct;
mod joining;
mod laws;
mod lib_fault;
mod matching;
mod names;
mod over;
mod plain;
mod ranges;
mod replacing;
mod scalars;
mod sets;
mod sorting;
mod splitting;
mod texts;
mod trimming;

pub use call::{call_plain, call_within};
pub use laws::{
    distinct_elements_are_apart, parts_are_replaced_from_left_to_right, pieces_join_to_the_text,
    sorted_elements_rise,
};
pub use lib_fault::LibFault;
pub use names::LibraryCall;
pub use plain::Plain;
