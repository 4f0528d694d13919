// Rules that make objects.
use dsl_syntax::{Block, Each};
use dsl_value::Value;
use site_base::{ItemNo, Place, Text};
use std::sync::Arc;

/// An `apply` rule (Icinga 2 documentation, Language Reference, Apply).
#[derive(Drop)]
pub struct Rule {
    pub number: ItemNo,
    pub place: Place,
    pub kind: Text,
    /// The name, or the beginning of the names of a loop, with the place of its expression.
    pub name: Option<(Text, Place)>,
    /// The type of the objects that it goes to.
    pub target: Text,
    pub each: Option<Arc<Each>>,
    /// By rising names.
    pub captured: Vec<(Text, Value)>,
    pub body: Arc<Block>,
}
