//! The parts that expressions are made of: none of them leads back into expressions or statements.
//!
//! The levels of operators (`levels`, `operators`, `prefixes`), then nodes, the elements of arrays (`slots`), literals, and functions
//! with their parameters.
#![tactic(auto)]

pub mod functions;
pub mod levels;
pub mod literals;
pub mod nodes;
pub mod operators;
pub mod prefixes;
pub mod slots;
