// The operators of assignments.

/// How an assignment makes the new value.
#[derive(Clone, Copy, PartialEq, Eq)]
pub enum SetOp {
    /// `=`
    Plain,
    /// `+=`
    Add,
    /// `-=`
    Sub,
    /// `*=`
    Mul,
    /// `/=`
    Div,
}
