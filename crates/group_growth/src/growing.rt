// Objects that get into groups.
ghost use Rattle.std.specs.Prelude.{◌≡◌, OnOk, IfOk};
ghost use Rattle.site_base.specs.View.{view, items_view, pairs_view};
ghost use Rattle.site_model.specs.PlainSite.{object_view};
ghost use Rattle.commit_meaning.specs.Answers.{made};
ghost use Rattle.commit_meaning.specs.Groups.{grown, items_of, items_under as under, tree_grown, with_groups};

use crate::listing::add_names;
use crate::putting::put_pair;
use object_types::Attribute;
use site_base::{OutOfMemory, Text, Tree, copy_tree};
use site_model::Object;
use std::alloc::Global;
use std::sync::Arc;

/// Adds the names of groups to an object's `groups`, each at the end where it isn't there yet. What stands there and is no list is
/// replaced.
pub fn grow(alloc: Global, object: &mut Object, names: &[Text]) -> Result<(), OutOfMemory>
    ensures { OnOk result (object_view object.new ≡ grown (object_view object.old) (made names.now)) }
{
    match Arc::get_mut(&mut object.tree) {
        Some(tree) => grow_tree(alloc, tree, names),
        None => {
            let mut tree = copy_tree(alloc, &object.tree)?;
            grow_tree(alloc, &mut tree, names)?;
            object.tree = Arc::new(alloc, tree)?;
            Ok(())
        }
    }
}

#[tactic(auto, using(crate::proofs::GroupLaws::grown_dict))]
fn grow_tree(alloc: Global, tree: &mut Tree, names: &[Text]) -> Result<(), OutOfMemory>
    ensures { OnOk result (view tree.new ≡ tree_grown names.now (view tree.old)) }
{
    if let Tree::Dict(pairs) = tree {
        grow_pairs(alloc, pairs, names)?;
    }
    Ok(())
}

fn grow_pairs(
    alloc: Global,
    pairs: &mut Vec<(Text, Tree)>,
    names: &[Text],
) -> Result<(), OutOfMemory>
    ensures { OnOk result (pairs_view pairs.new.items ≡ with_groups names.now (pairs_view pairs.old.items)) }
{
    let groups = Text::copy_of(alloc, Attribute::Groups.name())?;
    let mut list = list_under(alloc, &groups, pairs)?;
    let before = list.len();
    add_names(alloc, &mut list, names)?;
    if list.len() > before {
        list.shrink_to_fit();
        put_pair(pairs, groups, Tree::List(list))?;
    }
    Ok(())
}

/// A copy of the list under a key; empty where nothing or something else stands there.
fn list_under(alloc: Global, key: &Text, pairs: &[(Text, Tree)]) -> Result<Vec<Tree>, OutOfMemory>
    ensures { IfOk result (λ v. items_view v.items ≡ under key.now (pairs_view pairs.now)) }
{
    for pair in pairs {
        if pair.0 == *key {
            return list_in(alloc, &pair.1);
        }
    }
    Ok(Vec::new(alloc))
}

fn list_in(alloc: Global, tree: &Tree) -> Result<Vec<Tree>, OutOfMemory>
    ensures { IfOk result (λ v. items_view v.items ≡ items_of (view tree.now)) }
{
    match tree {
        Tree::List(items) => copy_items(alloc, items),
        _ => Ok(Vec::new(alloc)),
    }
}

fn copy_items(alloc: Global, items: &[Tree]) -> Result<Vec<Tree>, OutOfMemory>
    ensures { IfOk result (λ v. items_view v.items ≡ items_view items.now) }
{
    let mut copies = Vec::with_capacity(alloc, items.len())?;
    for item in items {
        copies.push(copy_tree(alloc, item)?)?;
    }
    Ok(copies)
}
