// What is evaluated.
use crate::{Item, Locals, Rule, Templates};
use site_base::Text;

/// What a load has come to.
#[derive(Drop)]
pub struct Loading {
    /// The part of the order that is the file's that is run. What is left of it stands from `at` on.
    pub order: Vec<u32>,
    pub at: usize,
    /// Each constant, with whether it can be replaced.
    pub constants: Locals,
    pub templates: Templates,
    pub items: Vec<Item>,
    pub rules: Vec<Rule>,
}

/// What is evaluated: a load, the body of an object of a type with the names that are bound in it, or an expression of a rule.
#[derive(Drop)]
pub enum Task {
    Load(Loading),
    Item { kind: Text, bound: Locals },
    Rule,
}
