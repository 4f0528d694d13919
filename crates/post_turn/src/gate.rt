// Points at which callers may be held up.
use site_base::ItemNo;

/// A place at which a caller enters a gate.
#[derive(Clone, Copy, PartialEq, Eq)]
pub enum GatePoint {
    /// Before the item of this number is evaluated.
    Begin(ItemNo),
    /// After the item of this number was evaluated.
    End(ItemNo),
    /// The caller has the turn at the post of this number.
    Inside(u32),
    /// The caller has given its turn at the post of this number back.
    Outside(u32),
}

/// A gate, which may hold a caller up for a while. No contract depends on it: with it, a test makes
/// callers meet in an order of its choice. Callers in several threads share one that is `Sync`.
pub trait Gate {
    /// The caller of this number is at this point.
    fn enter(&self, caller: u32, point: GatePoint);
}

/// A gate that holds nobody up.
#[derive(Clone, Copy)]
pub struct OpenGate;

impl Gate for OpenGate {
    fn enter(&self, _caller: u32, _point: GatePoint) {}
}
