// What a walk does inside of one cell.
ghost use Rattle.std.specs.Prelude.{◌≡◌, ◌<◌, IfOk, IfSome, IfNone, OnOk, Some, None, map, length, slice_get};
ghost use Rattle.site_base.specs.View.{view, pair_view};
ghost use Rattle.dsl_value.specs.Contents.{plain, pairs_of};
ghost use Rattle.dsl_value.specs.Paths.{entered, next_value, key_bytes, keyed, with_child, tree_made};
ghost use Rattle.dsl_value.specs.Entering.{frame, cell_of};

use crate::frame::Frame;
use crate::{Cell, Value};
use site_base::{OutOfMemory, Text, Tree};
use std::alloc::Global;

/// A cell of which nothing is passed, with room for the trees of all that is in it.
pub(crate) fn enter(alloc: Global, cell: u32, content: &Cell) -> Result<Frame, OutOfMemory>
    ensures { IfOk result (λ f. frame f ≡ entered cell (plain content.now)) }
{
    match content {
        Cell::Array(items) => {
            let made = Vec::with_capacity(alloc, items.len())?;
            Ok(Frame::Array { cell, made })
        }
        Cell::Dict(pairs) => {
            let made = Vec::with_capacity(alloc, pairs.len())?;
            Ok(Frame::Dict { cell, made })
        }
    }
}

/// The cell.
pub(crate) fn cell_of_frame(top: &Frame) -> u32
    ensures { result ≡ cell_of (frame top.now) }
{
    match top {
        Frame::Array { cell, .. } => *cell,
        Frame::Dict { cell, .. } => *cell,
    }
}

/// The value that comes next.
pub(crate) fn next_of<'a>(top: &Frame, content: &'a Cell) -> Option<&'a Value>
    ensures found { IfSome result (λ v. next_value (plain content.now) (frame top.now) ≡ Some v.now) }
    ensures none { IfNone result (next_value (plain content.now) (frame top.now) ≡ None) }
{
    match (top, content) {
        (Frame::Array { made, .. }, Cell::Array(items)) if made.len() < items.len() => {
            Some(&items[made.len()])
        }
        (Frame::Dict { made, .. }, Cell::Dict(pairs)) => Some(&pairs.at(made.len())?.1),
        _ => None,
    }
}

/// The bytes of the key that comes next.
pub(crate) fn key_bytes_of(top: &Frame, content: &Cell) -> usize
    ensures { result ≡ key_bytes (plain content.now) (frame top.now) }
{
    match (top, content) {
        (Frame::Dict { made, .. }, Cell::Dict(pairs)) => match pairs.at(made.len()) {
            Some(pair) => pair.0.len(),
            None => 0,
        },
        _ => 0,
    }
}

/// Passes a value, whose tree this is.
#[inline]
pub(crate) fn add_tree(top: &mut Frame, content: &Cell, tree: Tree) -> Result<(), OutOfMemory>
    ensures { OnOk result (frame top.new ≡ with_child (plain content.now) (frame top.old) (view tree)) }
{
    match top {
        Frame::Array { made, .. } => {
            made.push(tree)?;
            Ok(())
        }
        Frame::Dict { made, .. } => add_pair(made, content, tree),
    }
}

/// The same among the pairs that were passed.
fn add_pair(made: &mut Vec<(Text, Tree)>, content: &Cell, tree: Tree) -> Result<(), OutOfMemory>
    ensures { OnOk result (map pair_view made.new.items ≡ keyed (slice_get (pairs_of (plain content.now)) (length (map pair_view made.old.items))) (map pair_view made.old.items) (view tree)) }
{
    if let Cell::Dict(pairs) = content {
        if let Some(pair) = pairs.at(made.len()) {
            let key = pair.0.clone()?;
            made.push((key, tree))?;
        }
    }
    Ok(())
}

/// The tree of a cell that is passed.
pub(crate) fn tree_of_frame(top: Frame) -> Tree
    ensures { view result ≡ tree_made (frame top) }
{
    match top {
        Frame::Array { made, .. } => Tree::List(made),
        Frame::Dict { made, .. } => Tree::Dict(made),
    }
}
