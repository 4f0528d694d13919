// Reads with what they found.
use eval_meaning::Read;
use site_base::Tree;
use std::sync::Arc;

/// A read of a task, and the tree of the object that it found, if there was one.
#[derive(Drop)]
pub struct Look {
    pub read: Read,
    pub tree: Option<Arc<Tree>>,
}
