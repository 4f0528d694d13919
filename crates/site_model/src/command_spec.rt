// Commands as the configuration sets them.
use site_base::{Text, Tree};
use std::sync::Arc;

/// A command that checks (Icinga 2 documentation, Object Types, "CheckCommand").
#[derive(Drop)]
pub struct CommandSpec {
    pub name: Text,
    /// The object's attributes, a `Dict`.
    pub tree: Arc<Tree>,
}
