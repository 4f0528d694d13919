// Configuration files.
use crate::Stmt;

/// What one configuration file holds.
#[derive(Drop)]
pub struct File {
    pub statements: Vec<Stmt>,
}
