// What an event makes of a checkable before anything is decided.
use check_state::Status;

/// What an event makes of a checkable before anything is decided.
#[derive(Clone, Copy)]
pub(crate) struct Draft {
    /// What its entries show with the one of this event.
    pub status: Status,
    /// Whether the event has an effect.
    pub taken: bool,
}
