//! Wildcards: which texts a pattern describes.
//!
//! `*` is any number of characters, `?` is one, and everything else is itself. The library's `match` and
//! the inclusions of a site's files use them.
#![tactic(auto)]

mod laws;
mod matching;

pub use laws::what_matches_is_described;
pub use matching::matches;
