// Arrays and dictionaries that a walk is inside of.
use site_base::{Text, Tree};

/// An array or dictionary that a walk is inside of, with the trees of what it has passed of it.
#[derive(Drop)]
pub(crate) enum Frame {
    Array { cell: u32, made: Vec<Tree> },
    Dict { cell: u32, made: Vec<(Text, Tree)> },
}
