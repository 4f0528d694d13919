// Functions.
use crate::Value;
use dsl_syntax::Func;
use site_base::Text;
use std::sync::Arc;

/// A function with the names that it captured, in order, and their values.
#[derive(Drop)]
pub struct Function {
    pub func: Arc<Func>,
    pub captured: Vec<(Text, Value)>,
}
