// Copies of trees.
ghost use Rattle.std.specs.Prelude.{◌≡◌, ◌≤◌, ◌<◌, ◌+◌, ◌*◌, ◌++◌, map, IfOk};
ghost use Rattle.site_base.specs.Data.{list, dict};
ghost use Rattle.site_base.specs.View.{view, pair_view, items_of, pairs_of};
ghost use Rattle.site_base.specs.Weight.{weight, items_weight, pairs_weight};
ghost use Rattle.site_base.specs.Copying.{filled, value_of, work_in, work_of};

use crate::{OutOfMemory, Text, Tree};
use std::alloc::Global;

/// A list or dictionary whose copy is being made, without the part that is copied next.
#[derive(Drop)]
enum Open<'a> {
    List {
        made: Vec<Tree>,
        left: &'a [Tree],
    },
    Dict {
        made: Vec<(Text, Tree)>,
        key: Text,
        left: &'a [(Text, Tree)],
    },
}

/// What copying comes to.
#[derive(Drop)]
enum Step<'a> {
    Inside(Open<'a>, &'a Tree),
    Made(Tree),
}

/// A copy of a tree. However deep the tree is, this takes no more stack.
pub fn copy_tree(alloc: Global, tree: &Tree) -> Result<Tree, OutOfMemory>
    ensures { IfOk result (λ t. view t ≡ view tree.now) }
{
    let mut open = Vec::new(alloc);
    let mut step = enter(alloc, tree)?;
    loop {
        match step {
            Step::Inside(around, next) => {
                open.push(around)?;
                step = enter(alloc, next)?;
            }
            Step::Made(copy) => match open.pop() {
                Some(around) => step = add(around, copy)?,
                None => return Ok(copy),
            },
        }
    }
}

/// Copies a tree without parts, or begins a list or dictionary.
fn enter<'a>(alloc: Global, tree: &'a Tree) -> Result<Step<'a>, OutOfMemory>
    ensures value { IfOk result (λ s. value_of s ≡ view tree.now) }
    ensures less { IfOk result (λ s. work_of s < 2 * weight tree.now) }
{
    match tree {
        Tree::Null => Ok(Step::Made(Tree::Null)),
        Tree::Bool(value) => Ok(Step::Made(Tree::Bool(*value))),
        Tree::Number(number) => Ok(Step::Made(Tree::Number(*number))),
        Tree::Str(text) => Ok(Step::Made(Tree::Str(text.clone()?))),
        Tree::List(items) => Ok(next_item(Vec::with_capacity(alloc, items.len())?, items)),
        Tree::Dict(pairs) => next_pair(Vec::with_capacity(alloc, pairs.len())?, pairs),
    }
}

/// Adds the copy of a part.
fn add<'a>(around: Open<'a>, copy: Tree) -> Result<Step<'a>, OutOfMemory>
    ensures value { IfOk result (λ s. value_of s ≡ filled around.entry (view copy)) }
    ensures less { IfOk result (λ s. work_of s ≤ work_in around.entry) }
{
    match around {
        Open::List { mut made, left } => {
            made.push(copy)?;
            Ok(next_item(made, left))
        }
        Open::Dict {
            mut made,
            key,
            left,
        } => {
            made.push((key, copy))?;
            next_pair(made, left)
        }
    }
}

/// Goes on in a list of which so much is copied, and this is left.
fn next_item<'a>(made: Vec<Tree>, left: &'a [Tree]) -> Step<'a>
    ensures value { value_of result ≡ list (items_of (map view made.items ++ map view left.now)) }
    ensures less { work_of result ≤ 1 + 2 * items_weight left.now }
{
    match left.split_first() {
        None => Step::Made(Tree::List(made)),
        Some((next, left)) => Step::Inside(Open::List { made, left }, next),
    }
}

/// Goes on in a dictionary of which so much is copied, and this is left.
fn next_pair<'a>(made: Vec<(Text, Tree)>, left: &'a [(Text, Tree)]) -> Result<Step<'a>, OutOfMemory>
    ensures value { IfOk result (λ s. value_of s ≡ dict (pairs_of (map pair_view made.items ++ map pair_view left.now))) }
    ensures less { IfOk result (λ s. work_of s ≤ 1 + 2 * pairs_weight left.now) }
{
    match left.split_first() {
        None => Ok(Step::Made(Tree::Dict(made))),
        Some(((key, next), left)) => {
            let key = key.clone()?;
            Ok(Step::Inside(Open::Dict { made, key, left }, next))
        }
    }
}
