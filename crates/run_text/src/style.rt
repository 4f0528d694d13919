// The versions of a log.

/// In which version a log is written.
#[derive(Clone, Copy, PartialEq, Eq)]
pub enum Style {
    /// Version one.
    One,
    /// Version two, which begins with the line `log 2`, and tells the output of results and the words of orders too.
    Two,
}
