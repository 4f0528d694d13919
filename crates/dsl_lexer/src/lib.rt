//! The tokens of the configuration language.
//!
//! In reading order: the reserved words and the signs, tokens and what they are, the error, and
//! [`lex`], which goes over a text step by step. What a step finds is in `stepping`: names and strings, which
//! share their texts by `interner`, numbers, comments, and signs by the longest mark.
#![tactic(auto)]

mod interner;
mod letters;
mod lex_error;
mod lexing;
mod mark;
mod marks;
mod sign;
mod spans;
mod stepping;
mod strings;
mod token;
mod token_kind;
mod unit;
mod word;
mod words;

pub use lex_error::{LexError, LexFault};
pub use lexing::{lex, tokens_are_longest, tokens_are_one, what_is_read_are_the_tokens};
pub use sign::Sign;
pub use token::Token;
pub use token_kind::TokenKind;
pub use word::Word;
