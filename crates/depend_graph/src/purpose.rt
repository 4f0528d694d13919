// What a checkable is to be reached for.

/// What a checkable is to be reached for: a dependency holds back checks, notifications or both.
#[derive(Clone, Copy, PartialEq, Eq)]
pub enum Purpose {
    /// A check of the program's own.
    Checks,
    /// Notifications of it.
    Notes,
}
