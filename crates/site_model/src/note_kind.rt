// The kinds of notifications.

/// What a notification tells of (Icinga 2 documentation, Object Types, "Notification", `types`).
#[derive(Clone, Copy, PartialEq, Eq)]
pub enum NoteKind {
    Problem,
    Recovery,
    Acknowledgement,
    Custom,
    DowntimeStart,
    DowntimeEnd,
    DowntimeRemoved,
    FlappingStart,
    FlappingEnd,
}
