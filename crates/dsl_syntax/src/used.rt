// The names that a body captures.
use crate::Expr;
use site_base::Text;

/// A name of a `use` list: captured under this name is the expression's value, or the value that
/// the name has if there is no expression.
#[cycle(syntax)]
#[derive(Drop)]
pub struct Use {
    pub name: Text,
    pub expr: Option<Expr>,
}
