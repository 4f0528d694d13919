//! The engine of a run: turn after turn it takes what the world hands in, by one worker or by many, and tells what is refused, which
//! entries checkables get, and which checks are ordered.
//!
//! In reading order: an order with its words (`order_out`), what a turn gives (`turn_out`), how orders get their words (`starting`),
//! the checkables without entries (`books`), the greatest moment of entries (`moments`), what the engine keeps (`state`), the round that
//! several workers make (`callers`), what follows the round of a turn (`settling`), a turn from its beginning on (`turns`), and the engine
//! (`engine`).
#![tactic(auto)]

mod books;
mod callers;
mod engine;
mod given;
mod moments;
mod order_out;
mod settling;
mod starting;
mod state;
mod turn_out;
mod turns;

pub use books::books_of;
pub use engine::{Engine, zone_of};
pub use moments::later_of;
pub use order_out::OrderOut;
pub use turn_out::TurnOut;
