// The states of checkables.

/// The state of a service (`Okay` to `Unknown`) or of a host (`Up`, `Down`); Icinga 2 documentation,
/// Monitoring Basics, "Check States".
#[derive(Clone, Copy, PartialEq, Eq)]
pub enum State {
    Okay,
    Warning,
    Critical,
    Unknown,
    Up,
    Down,
}
