// Statements.
use crate::StmtKind;
use site_base::Place;

/// A statement at its place, which is that of its first token.
#[cycle(syntax)]
#[derive(Drop)]
pub struct Stmt {
    pub place: Place,
    pub kind: StmtKind,
}
