//! How deep the tokens of a configuration file stand: how many brackets are open through them, and how many tokens weigh on
//! them.
//!
//! The definitions stand in `specs/Depth`, first in the language's own words and then in one pass, and `too_deep` finds the
//! first token that stands too deep.
#![tactic(auto)]

mod depth;
mod role;

pub use depth::too_deep;
