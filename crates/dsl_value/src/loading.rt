// How trees are put into a store.
ghost use Rattle.std.specs.Prelude.{◌≡◌, ◌≤◌, ◌<◌, ◌+◌, ◌*◌, ◌++◌, ◌∷◌, [], IfOk, IfSome, OnOk, length, map};
ghost use Rattle.site_base.specs.View.{view, items_view, pairs_view};
ghost use Rattle.site_base.specs.Weight.{weight, items_weight, pairs_weight};
ghost use Rattle.dsl_value.specs.Contents.{plain};
ghost use Rattle.dsl_value.specs.Loads.{bare, load, grown, given};
ghost use Rattle.dsl_value.specs.Loading.{among, loaded, array_of, dict_of_pairs, filled, value_of, work_in, work_of, SameArray, SameDict};

use crate::{Cell, SortedPairs, Value};
use site_base::{OutOfMemory, Text, Tree};
use std::alloc::Global;

/// An array or dictionary that is being loaded, without the part that is loaded next.
#[derive(Drop)]
enum Open<'a> {
    Array {
        values: Vec<Value>,
        left: &'a [Tree],
    },
    Dict {
        pairs: Vec<(Text, Value)>,
        key: Text,
        left: &'a [(Text, Tree)],
    },
}

/// What loading comes to.
#[derive(Drop)]
enum Step<'a> {
    Inside(Open<'a>, &'a Tree),
    Made(Value),
}

/// Makes the cells of a tree behind those that are made so far, before which so many others lie, and
/// gives the value that stands for it. However deep the tree is, this takes no more stack.
pub(crate) fn make_tree(
    alloc: Global,
    tree: &Tree,
    before: u32,
    made: &mut Vec<Cell>,
) -> Result<Value, OutOfMemory>
    ensures value { IfOk result (λ v. v ≡ given before (map plain made.old.items) (load (view tree.now))) }
    ensures cells { OnOk result (map plain made.new.items ≡ grown before (map plain made.old.items) (load (view tree.now))) }
{
    let mut open = Vec::new(alloc);
    let mut step = enter(alloc, tree, before, made)?;
    loop {
        match step {
            Step::Inside(around, next) => {
                open.push(around)?;
                step = enter(alloc, next, before, made)?;
            }
            Step::Made(value) => match open.pop() {
                Some(around) => step = add(alloc, around, value, before, made)?,
                None => return Ok(value),
            },
        }
    }
}

/// Loads a tree without parts, or begins an array or dictionary.
fn enter<'a>(
    alloc: Global,
    tree: &'a Tree,
    before: u32,
    made: &mut Vec<Cell>,
) -> Result<Step<'a>, OutOfMemory>
    ensures value { IfOk result (λ s. value_of before (map plain made.new.items) s ≡ loaded before (map plain made.old.items) (view tree.now)) }
    ensures less { IfOk result (λ s. work_of s < 2 * weight tree.now) }
{
    match tree {
        Tree::Null => Ok(Step::Made(Value::Null)),
        Tree::Bool(value) => Ok(Step::Made(Value::Bool(*value))),
        Tree::Number(number) => Ok(Step::Made(Value::Number(*number))),
        Tree::Str(text) => Ok(Step::Made(Value::Str(text.clone()?))),
        Tree::List(items) => {
            next_item(Vec::with_capacity(alloc, items.len())?, items, before, made)
        }
        Tree::Dict(pairs) => {
            next_pair(
                alloc,
                Vec::with_capacity(alloc, pairs.len())?,
                pairs,
                before,
                made,
            )
        }
    }
}

/// Adds the value of a part.
fn add<'a>(
    alloc: Global,
    around: Open<'a>,
    value: Value,
    before: u32,
    made: &mut Vec<Cell>,
) -> Result<Step<'a>, OutOfMemory>
    ensures value { IfOk result (λ s. value_of before (map plain made.new.items) s ≡ filled before around.entry (among value (map plain made.old.items))) }
    ensures less { IfOk result (λ s. work_of s ≤ work_in around.entry) }
{
    match around {
        Open::Array { mut values, left } => {
            values.push(value)?;
            next_item(values, left, before, made)
        }
        Open::Dict {
            mut pairs,
            key,
            left,
        } => {
            pairs.push((key, value))?;
            next_pair(alloc, pairs, left, before, made)
        }
    }
}

/// Goes on in an array of which so much is loaded, and this is left.
fn next_item<'a>(
    mut values: Vec<Value>,
    left: &'a [Tree],
    before: u32,
    made: &mut Vec<Cell>,
) -> Result<Step<'a>, OutOfMemory>
    ensures value { IfOk result (λ s. value_of before (map plain made.new.items) s ≡ array_of before (map plain made.old.items) values.items (items_view left.now)) }
    ensures less { IfOk result (λ s. work_of s ≤ 1 + 2 * items_weight left.now) }
{
    let left = add_bare_items(&mut values, left)?;
    match left.split_first() {
        None => Ok(Step::Made(add_cell(Cell::Array(values), before, made)?)),
        Some((next, left)) => Ok(Step::Inside(Open::Array { values, left }, next)),
    }
}

/// Goes on in a dictionary of which so much is loaded, and this is left.
fn next_pair<'a>(
    alloc: Global,
    mut pairs: Vec<(Text, Value)>,
    left: &'a [(Text, Tree)],
    before: u32,
    made: &mut Vec<Cell>,
) -> Result<Step<'a>, OutOfMemory>
    ensures value { IfOk result (λ s. value_of before (map plain made.new.items) s ≡ dict_of_pairs before (map plain made.old.items) pairs.items (pairs_view left.now)) }
    ensures less { IfOk result (λ s. work_of s ≤ 1 + 2 * pairs_weight left.now) }
{
    let left = add_bare_pairs(&mut pairs, left)?;
    match left.split_first() {
        None => {
            let sorted = SortedPairs::of_pairs(alloc, pairs)?;
            Ok(Step::Made(add_cell(Cell::Dict(sorted), before, made)?))
        }
        Some(((key, next), left)) => {
            let key = key.clone()?;
            Ok(Step::Inside(Open::Dict { pairs, key, left }, next))
        }
    }
}

/// Adds the values of the items that need no cell and stand in front of the first that needs one, and
/// gives what is left.
fn add_bare_items<'a>(values: &mut Vec<Value>, items: &'a [Tree]) -> Result<&'a [Tree], OutOfMemory>
    ensures value { IfOk result (λ r. SameArray values.new.items (items_view r.now) values.old.items (items_view items.now)) }
    ensures less { IfOk result (λ r. items_weight r.now ≤ items_weight items.now) }
{
    let mut left = items;
    while let Some((next, rest)) = left.split_first() {
        let Some(value) = bare_value(next)? else {
            break;
        };
        values.push(value)?;
        left = rest;
    }
    Ok(left)
}

/// The same for pairs.
fn add_bare_pairs<'a>(
    pairs: &mut Vec<(Text, Value)>,
    items: &'a [(Text, Tree)],
) -> Result<&'a [(Text, Tree)], OutOfMemory>
    ensures value { IfOk result (λ r. SameDict pairs.new.items (pairs_view r.now) pairs.old.items (pairs_view items.now)) }
    ensures less { IfOk result (λ r. pairs_weight r.now ≤ pairs_weight items.now) }
{
    let mut left = items;
    while let Some(((key, next), rest)) = left.split_first() {
        let Some(value) = bare_value(next)? else {
            break;
        };
        pairs.push((key.clone()?, value))?;
        left = rest;
    }
    Ok(left)
}

/// The value of a tree that needs no cell; `None` for a list or dictionary.
fn bare_value(tree: &Tree) -> Result<Option<Value>, OutOfMemory>
    ensures { IfOk result (λ o. IfSome o (λ v. load (view tree.now) ≡ (λ n. bare v))) }
{
    match tree {
        Tree::Null => Ok(Some(Value::Null)),
        Tree::Bool(value) => Ok(Some(Value::Bool(*value))),
        Tree::Number(number) => Ok(Some(Value::Number(*number))),
        Tree::Str(text) => Ok(Some(Value::Str(text.clone()?))),
        Tree::List(_) | Tree::Dict(_) => Ok(None),
    }
}

/// Adds a cell, and gives the value that names it. A number that no value holds is want of memory.
fn add_cell(cell: Cell, before: u32, made: &mut Vec<Cell>) -> Result<Value, OutOfMemory>
    ensures value { IfOk result (λ v. v ≡ Value.Ref (before + length (map plain made.old.items))) }
    ensures cells { OnOk result (map plain made.new.items ≡ map plain made.old.items ++ plain cell ∷ []) }
{
    let Ok(number) = u32::try_from(u64::from(before) + made.len() as u64) else {
        return Err(OutOfMemory);
    };
    made.push(cell)?;
    Ok(Value::Ref(number))
}
