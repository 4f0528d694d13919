// Expressions.
use crate::ExprKind;
use site_base::Place;

/// An expression at its place, which is that of its first token.
#[cycle(syntax)]
#[derive(Drop)]
pub struct Expr {
    pub place: Place,
    pub kind: ExprKind,
}
