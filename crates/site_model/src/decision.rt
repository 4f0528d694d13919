// Decisions on notifications.
use crate::{NoteKind, Outcome};

/// What was decided on one notification.
#[derive(Clone, Drop, PartialEq, Eq)]
pub struct Decision {
    /// Its index among the site's notifications.
    pub notification: u32,
    pub kind: NoteKind,
    pub outcome: Outcome,
}
