//! The parser of the configuration language: from the tokens of a file to its tree.
//!
//! A function for each production of the grammar that leads back into others, since blocks and expressions stand inside one
//! another: `parsing`, then expressions (`exprs`, `tails`, `collections`, `functions`) and statements (`blocks`,
//! `statements`, `assignments`, `choices`, `loops`, `objects`, `applies`).
//!
//! `most` bounds the tokens that a function is handed: there are no more, and fewer where the production that it belongs to has begun.
//! What stands inside is read with one less.
#![tactic(auto)]

mod applies;
mod assignments;
mod blocks;
mod choices;
mod collections;
mod exprs;
mod functions;
mod loops;
mod objects;
mod parsing;
mod statements;
mod tails;

pub use dsl_grammar::ParseError;
pub use parsing::parse;
