// What stands in a column.

/// What a checkable shows in a column.
#[derive(Clone, Copy)]
pub(crate) enum Cell<'a> {
    /// A text, as the name.
    Words(&'a str),
    Count(u64),
}
