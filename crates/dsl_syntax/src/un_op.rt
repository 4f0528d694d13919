// The operators before an operand.

/// An operator before its one operand.
#[derive(Clone, Copy, PartialEq, Eq)]
pub enum UnOp {
    /// `!`
    Not,
    /// `~`
    Complement,
    /// `+`
    Plus,
    /// `-`
    Minus,
}
