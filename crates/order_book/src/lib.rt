//! The orders of checks that have no report yet.
#![tactic(auto)]

mod order_book;

pub use order_book::OrderBook;
