// Entries of a checkable's history.
use crate::{Decision, Event, Sight, State};
use site_base::{Moment, Row};

/// An entry of a checkable's history: an event, and what it made of the checkable.
#[derive(Drop)]
pub struct Entry {
    /// The worker that took the event, from 0.
    pub caller: u32,
    /// The place in the checkable's history, from 1.
    pub number: u64,
    pub moment: Moment,
    pub event: Event,
    /// Whether the event had an effect, or was void.
    pub taken: bool,
    /// The state after the event.
    pub state: State,
    /// Whether that state is HARD.
    pub hard: bool,
    /// The check attempt after the event, from 1.
    pub attempt: u32,
    /// How far the checkables on which this one depends were seen, by ascending index.
    pub sights: Row<Sight>,
    /// What was decided on its notifications, in their order.
    pub decisions: Row<Decision>,
}
