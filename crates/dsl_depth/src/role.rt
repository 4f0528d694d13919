// The roles of tokens.

/// What a token does to the depth of those after it.
#[derive(Clone, Copy, PartialEq, Eq)]
pub(crate) enum Role {
    /// It opens a bracket, and counts.
    Opening,
    /// It closes a bracket.
    Closing,
    /// It is an operator, `.` or `=>`, and counts.
    Counted,
    /// It separates what stands before it from what stands behind it.
    Separating,
    /// Nothing.
    Plain,
}
