// What comes of notifications.
use site_base::Row;

/// What comes of a notification: it is sent, or the first cause that holds it back. Indices are places
/// in the lists of the `Site`.
#[derive(Clone, Drop, PartialEq, Eq)]
pub enum Outcome {
    /// It goes to these users, in the notification's order.
    Sent { users: Row<u32> },
    /// Notifications are off for the checkable.
    Disabled,
    /// The first dependency that holds it back.
    Dependency { depend: u32 },
    /// The host that holds its service back.
    Host { checkable: u32 },
    /// The downtime in effect, by the number of the entry that began it.
    Downtime { number: u64 },
    /// The checkable changes its state too often.
    Flapping,
    /// The problem is acknowledged.
    Acknowledged,
    /// It is outside the notification's period.
    Period,
    /// The notification doesn't tell this kind.
    Kind,
    /// The notification doesn't tell this state.
    State,
    /// The problem is younger than the notification's `times.begin`.
    TooEarly,
    /// The problem is older than the notification's `times.end`.
    TooLate,
    /// It was told, and its interval isn't over.
    Repeat,
    /// No user takes it.
    NoUsers,
}
