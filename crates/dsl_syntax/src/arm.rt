// The arms of an `if`.
use crate::{Expr, Stmt};

/// One condition of an `if`, and what is run if it is the first that holds.
#[cycle(syntax)]
#[derive(Drop)]
pub struct Arm {
    pub cond: Expr,
    pub block: Vec<Stmt>,
}
