// What happens to checkables.
use site_base::{Moment, Text};

/// What happens to a checkable: a check's result, the clock, or a command of a person.
#[derive(Clone, Drop, PartialEq, Eq)]
pub enum Event {
    /// A check's result.
    Result {
        /// From 0 to 3, as a plugin ends.
        status: u8,
        /// Whether it was handed in, and not ordered.
        passive: bool,
        output: Text,
        perf: Text,
    },
    /// The clock alone, by which notifications are decided anew.
    Tick,
    /// An acknowledgement of the problem.
    Ack {
        sticky: bool,
        /// Whether it is told.
        notify: bool,
    },
    /// The end of an acknowledgement.
    Unack,
    /// A new downtime, from `start` and before `end`.
    Down {
        start: Moment,
        end: Moment,
        fixed: bool,
        /// Seconds that a flexible downtime lasts once it is triggered; 0 for a fixed one.
        duration: u64,
    },
    /// The end of the downtime that the entry of this number began.
    Undown {
        number: u64,
    },
    /// Active checks are switched on or off.
    Checks {
        on: bool,
    },
    /// Notifications are switched on or off.
    Notes {
        on: bool,
    },
    /// The next check is set to a moment; one that is forced runs whatever holds checks back.
    Check {
        moment: Moment,
        forced: bool,
    },
}
