// One turn of a walk.
use crate::path::Path;
use site_base::Tree;

/// What a turn of a walk leads to.
#[derive(Drop)]
pub(crate) enum Turn {
    On(Path),
    Done(Tree),
}
