// Objects that are to be made.
use dsl_syntax::Block;
use dsl_value::Value;
use site_base::{ItemNo, Place, Text, Tree};
use std::sync::Arc;

/// An object that is to be made: of an `object` statement, or of a rule for a target.
#[derive(Drop)]
pub struct Item {
    pub number: ItemNo,
    pub kind: Text,
    pub name: Text,
    pub place: Place,
    /// The attributes that are there before the body is run.
    pub presets: Vec<(Text, Tree)>,
    /// The names that are bound in the body.
    pub names: Vec<(Text, Tree)>,
    /// By rising names.
    pub captured: Vec<(Text, Value)>,
    pub body: Arc<Block>,
    /// Whether a part of the built-in library has it.
    pub builtin: bool,
}
