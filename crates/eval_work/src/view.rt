// What an evaluation is told of the site.
use crate::{Committed, Rule, SourceFile, Templates};
use dsl_value::Store;
use eval_meaning::Read;
use site_base::Text;

/// What is known beside the objects that are shown: the types of which all are, and the names that are absent.
#[derive(Drop)]
pub struct Known {
    pub whole: Vec<Text>,
    pub absent: Vec<Read>,
}

/// A view of the site: what the load left, and what is told of the objects that were committed. At a load there is nothing
/// of this, and there are files.
#[derive(Clone, Copy)]
pub struct WorldView<'a> {
    pub store: &'a Store,
    pub templates: &'a Templates,
    pub rules: &'a [Rule],
    pub objects: &'a Committed,
    pub known: &'a Known,
    pub files: &'a [SourceFile],
}
