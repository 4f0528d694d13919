// Functions.
use crate::{Stmt, Use};
use site_base::Texts;

/// A function: its parameters, the names that it captures, and its body. One that is written with an
/// expression in place of a block has that expression's `return` as its body.
#[cycle(syntax)]
#[derive(Drop)]
pub struct Func {
    pub params: Texts,
    pub uses: Vec<Use>,
    pub block: Vec<Stmt>,
}
