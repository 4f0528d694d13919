// Templates.
use dsl_syntax::Block;
use dsl_value::Value;
use site_base::{Place, Text};
use std::sync::Arc;

/// A template (Icinga 2 documentation, Language Reference, Template Imports), with what it captured.
#[derive(Drop)]
pub struct Template {
    pub kind: Text,
    pub name: Text,
    pub place: Place,
    /// By rising names.
    pub captured: Vec<(Text, Value)>,
    pub body: Arc<Block>,
}
