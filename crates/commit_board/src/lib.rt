//! A board of tasks that many workers do, wave after wave.
//!
//! In reading order: which tasks there are and what answers they may have (`course`), how a task stands (`slot`), what a worker takes and
//! gives back (`claim`), the board (`board`), a law of boards (`laws`), what tasks come to (`evaluate`), tasks in batches (`batches`),
//! and many workers at one board (`answering`).
#![tactic(auto)]

mod answering;
mod batches;
mod board;
mod claim;
mod course;
mod evaluate;
mod laws;
mod slot;

pub use answering::answer_all;
pub use board::{Answers, Board};
pub use claim::{Claim, Found, Ticket};
pub use course::Course;
pub use evaluate::Evaluate;
pub use laws::a_task_is_left;
pub use slot::Slot;
