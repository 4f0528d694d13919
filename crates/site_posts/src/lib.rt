//! A round: the events of one turn, which one caller takes one after another or several take at the same time, and the entries that
//! checkables get of them.
//!
//! In reading order: an event on a checkable (`act`), on which checkables there are acts (`touched`), what one checkable gets (`segment`)
//! and how that is gathered (`gathering`), what stays the same through a round, with one act of it (`setting`), acts that are taken one
//! after another (`in_order`), and the round of one caller (`round`). For several callers: what is seen of the ancestors of checkables
//! (`ahead`), how their books are lent to posts and come back (`lending`), what the callers share (`hall`), and the round itself (`many`).
#![tactic(auto)]

mod act;
mod ahead;
mod gathering;
mod hall;
mod in_order;
mod lending;
mod many;
mod round;
mod segment;
mod setting;
mod touched;

pub use act::Act;
pub use many::round_many;
pub use round::round_one;
pub use segment::{Segment, Segments};
pub use setting::Setting;
