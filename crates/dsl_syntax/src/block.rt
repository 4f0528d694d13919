// Bodies that are shared.
use crate::Stmt;

/// The body of an object, a template or an apply rule, which what is made of it shares.
#[cycle(syntax)]
#[derive(Drop)]
pub struct Block {
    pub statements: Vec<Stmt>,
}
