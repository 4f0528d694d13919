// What others see of a checkable.
use crate::{Ack, State};
use site_base::Moment;

/// What others see of a checkable between two events.
#[derive(Clone, Copy, PartialEq, Eq)]
pub struct View {
    /// The number of its entries so far.
    pub count: u64,
    /// Whether a result came yet.
    pub has_result: bool,
    pub state: State,
    /// Whether the state is HARD (Icinga 2 documentation, Monitoring Basics, "Hard and Soft States").
    pub hard: bool,
    /// The check attempt, from 1.
    pub attempt: u32,
    /// The moment of the last result that made it a HARD problem or changed the state of one, also after
    /// the problem's end; 0 if none did.
    pub change: Moment,
    pub ack: Ack,
    /// Whether active checks are on: they are set on, and weren't switched off last.
    pub checks_on: bool,
    /// Whether notifications are on: they are set on, and weren't switched off last.
    pub notes_on: bool,
    /// Whether it changes its state too often (Icinga 2 documentation, Monitoring Basics, "Flapping").
    pub flapping: bool,
}
