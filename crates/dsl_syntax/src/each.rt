// The heads of `for` loops.
use crate::Expr;
use site_base::Text;

/// The head of a loop, `key in expr` or `key => value in expr`.
#[cycle(syntax)]
#[derive(Drop)]
pub struct Each {
    pub key: Text,
    pub value: Option<Text>,
    pub expr: Expr,
}
