// Diagnostics.
use crate::{DiagKind, ItemNo, Place, Row, Text};

/// One fault of a configuration or a script.
#[derive(Clone, Drop, PartialEq, Eq)]
pub struct Diag {
    /// The number of the item that it belongs to; diagnostics of one phase are listed by it.
    pub number: ItemNo,
    pub place: Place,
    pub kind: DiagKind,
    /// The whole detail as it is printed, quotes included; empty if there is none.
    pub text: Text,
}

/// A list of diagnostics.
pub type Diags = Row<Diag>;
