// Copies of trees.
use site_base::{Num, OutOfMemory, Text, Tree, copy_tree};
use std::alloc::Global;

/// Adds whether the copy of `{ a = "x", b = [null, true, NUMBER] }` is this tree, for so many thousandths.
pub(crate) fn push_copied(alloc: Global, out: &mut Text, text: &str) -> Result<(), OutOfMemory> {
    let number = Num::of(text.parse::<i64>().unwrap_or(0));
    let tree = written(alloc, number)?;
    let copy = copy_tree(alloc, &tree)?;
    out.push_str(if is_as_written(&copy, number) {
        "same"
    } else {
        "differs"
    })
}

/// The tree `{ a = "x", b = [null, true, NUMBER] }`.
fn written(alloc: Global, number: Num) -> Result<Tree, OutOfMemory> {
    let list = vec![in alloc; Tree::Null, Tree::Bool(true), Tree::Number(number)]?;
    let text = Tree::Str(Text::copy_of(alloc, "x")?);
    dict(
        alloc,
        pair(alloc, "a", text)?,
        pair(alloc, "b", Tree::List(list))?,
    )
}

fn pair(alloc: Global, key: &str, tree: Tree) -> Result<(Text, Tree), OutOfMemory> {
    Ok((Text::copy_of(alloc, key)?, tree))
}

/// A dictionary of two pairs.
fn dict(alloc: Global, first: (Text, Tree), last: (Text, Tree)) -> Result<Tree, OutOfMemory> {
    Ok(Tree::Dict(vec![in alloc; first, last]?))
}

/// Whether a tree is `{ a = "x", b = [null, true, NUMBER] }`.
fn is_as_written(tree: &Tree, number: Num) -> bool {
    match tree {
        Tree::Dict(pairs) => match pairs.as_slice() {
            [a, b] => {
                a.0.as_str() == "a" && is_x(&a.1) && b.0.as_str() == "b" && is_list(&b.1, number)
            }
            _ => false,
        },
        _ => false,
    }
}

fn is_x(tree: &Tree) -> bool {
    match tree {
        Tree::Str(text) => text.as_str() == "x",
        _ => false,
    }
}

/// Whether a tree is `[null, true, NUMBER]`.
fn is_list(tree: &Tree, number: Num) -> bool {
    match tree {
        Tree::List(items) => match items.as_slice() {
            [first, second, last] => {
                matches!(first, Tree::Null)
                    && matches!(second, Tree::Bool(true))
                    && matches!(last, Tree::Number(n) if *n == number)
            }
            _ => false,
        },
        _ => false,
    }
}

/// Adds how many levels a copy of a tree of so many levels has. Tree and copy are let go afterwards.
pub(crate) fn push_deep(alloc: Global, out: &mut Text, text: &str) -> Result<(), OutOfMemory> {
    let mut tree = Tree::Null;
    for level in 0..text.parse::<u32>().unwrap_or(0) {
        tree = around(alloc, tree, level % 2 == 0)?;
    }
    let copy = copy_tree(alloc, &tree)?;
    out.push_decimal(levels_of(&copy))
}

/// A list or a dictionary around a tree.
fn around(alloc: Global, tree: Tree, in_list: bool) -> Result<Tree, OutOfMemory> {
    if in_list {
        return Ok(Tree::List(vec![in alloc; Tree::Bool(true), tree, Tree::Null]?));
    }
    dict(
        alloc,
        pair(alloc, "k", tree)?,
        pair(alloc, "l", Tree::Null)?,
    )
}

/// How many levels lie one inside the other.
fn levels_of(tree: &Tree) -> u64 {
    let mut levels = 0u64;
    let mut next = tree;
    loop {
        next = match next {
            Tree::List(items) if items.len() == 3 => &items[1],
            Tree::Dict(pairs) if pairs.len() == 2 => &pairs[0].1,
            _ => return levels,
        };
        levels = levels.saturating_add(1);
    }
}
