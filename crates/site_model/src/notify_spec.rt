// Notifications as the configuration sets them.
use crate::{KindSet, StateSet};
use site_base::{Row, Text};

/// A notification of a checkable (Icinga 2 documentation, Object Types, "Notification"). Indices are
/// places in the lists of the `Site`.
#[derive(Drop)]
pub struct NotifySpec {
    /// The full name.
    pub name: Text,
    pub checkable: u32,
    /// The users that it names, and then the members of the groups that it names, each once.
    pub users: Row<u32>,
    /// Seconds until a problem is told again; 0 for once only.
    pub interval: u64,
    /// `times.begin`, in seconds after the change of state; a problem is told from then on.
    pub begin: Option<u64>,
    /// `times.end`, in seconds after the change of state; a problem isn't told after it.
    pub end: Option<u64>,
    /// The kinds that are told; `None` for all.
    pub kinds: Option<KindSet>,
    /// The states that are told; `None` for all.
    pub states: Option<StateSet>,
    /// The period in which it tells; `None` for always.
    pub period: Option<u32>,
}
