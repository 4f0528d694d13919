// The ways into a value.
use crate::Expr;
use site_base::Text;

/// One step from a value to a value inside it, in the target of an assignment.
#[cycle(syntax)]
#[derive(Drop)]
pub enum Step {
    /// `.name`
    Member(Text),
    /// `[expr]`
    Index(Expr),
}
