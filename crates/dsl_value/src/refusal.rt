// Why a call with a limit gave nothing.

/// Why a call that may cost only so many units gave nothing.
#[derive(Clone, Copy, PartialEq, Eq)]
pub enum Refusal<F> {
    /// What the call refuses for without a limit. It is found first.
    Fault(F),
    /// The call costs more units than are left.
    SpaceLimit,
}
