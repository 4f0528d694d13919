// What trees cost.
ghost use Rattle.std.specs.Prelude.{◌≡◌, ◌<◌, ◌+◌, ◌*◌, IfOk, MatchOption};
ghost use Rattle.site_base.specs.Weight.{weight};
ghost use Rattle.site_base.specs.View.{view};
ghost use Rattle.dsl_value.specs.Loads.{cost};
ghost use Rattle.dsl_value.specs.Costs.{own_cost, left_cost, left_work, part_cost, part_work};

use site_base::{OutOfMemory, Text, Tree};
use std::alloc::Global;

/// The parts of an array or dictionary that aren't counted yet.
#[derive(Clone, Copy)]
enum Left<'a> {
    Items(&'a [Tree]),
    Pairs(&'a [(Text, Tree)]),
}

/// A part of an array or dictionary, what is left behind it and what is inside of it.
#[derive(Clone, Copy)]
struct Counted<'a> {
    /// What the part costs without what is inside of it.
    units: u64,
    rest: Left<'a>,
    inside: Left<'a>,
}

/// What a tree costs: a unit for each byte of its strings, keys included, for each array and dictionary, and
/// for each element and pair. However deep the tree is, this takes no more stack.
#[tactic(auto, using(crate::proofs::Counted::costs_end, crate::proofs::Counted::works_end))]
pub fn tree_cost(alloc: Global, tree: &Tree) -> Result<u64, OutOfMemory>
    ensures { IfOk result (λ n. n ≡ cost (view tree.now)) }
{
    let mut units = own_units(tree);
    let mut open = Vec::new(alloc);
    open.push(parts_of(tree))?;
    while let Some(left) = open.pop() {
        if let Some(part) = next_part(left)? {
            units = plus(units, part.units)?;
            open.push(part.rest)?;
            open.push(part.inside)?;
        }
    }
    Ok(units)
}

/// What a tree costs without its parts.
#[tactic(auto, using(crate::proofs::Counted::own_list, crate::proofs::Counted::own_dict))]
fn own_units(tree: &Tree) -> u64
    ensures { result ≡ own_cost (view tree.now) }
{
    match tree {
        Tree::Null | Tree::Bool(_) | Tree::Number(_) => 0,
        Tree::Str(text) => text.len() as u64,
        Tree::List(_) | Tree::Dict(_) => 1,
    }
}

/// The parts of a tree.
#[tactic(auto, using(site_base::proofs::Weights::weight_null, site_base::proofs::Weights::weight_bool, site_base::proofs::Weights::weight_number, site_base::proofs::Weights::weight_str, site_base::proofs::Weights::weight_list, site_base::proofs::Weights::weight_dict, crate::proofs::Counted::list_parts, crate::proofs::Counted::dict_parts))]
fn parts_of(tree: &Tree) -> Left<'_>
    ensures cost { own_cost (view tree.now) + left_cost result ≡ cost (view tree.now) }
    ensures less { left_work result < 2 * weight tree.now }
{
    match tree {
        Tree::Null | Tree::Bool(_) | Tree::Number(_) | Tree::Str(_) => Left::Items(&[]),
        Tree::List(items) => Left::Items(items),
        Tree::Dict(pairs) => Left::Pairs(pairs),
    }
}

/// The first of the parts that are left; `None` if none is.
#[tactic(auto, using(crate::proofs::Counted::first_item, crate::proofs::Counted::first_pair, crate::proofs::Counted::item_work, crate::proofs::Counted::pair_work, crate::proofs::Counted::no_items, crate::proofs::Counted::no_pairs))]
fn next_part(left: Left<'_>) -> Result<Option<Counted<'_>>, OutOfMemory>
    ensures { IfOk result (λ o. MatchOption o (left_cost left.entry ≡ 0) (λ p. (left_cost left.entry ≡ part_cost p) × (part_work p < left_work left.entry))) }
{
    match left {
        Left::Items(items) => match items.split_first() {
            None => Ok(None),
            Some((next, rest)) => Ok(Some(Counted {
                units: plus(1, own_units(next))?,
                rest: Left::Items(rest),
                inside: parts_of(next),
            })),
        },
        Left::Pairs(pairs) => match pairs.split_first() {
            None => Ok(None),
            Some(((key, next), rest)) => {
                let named = plus(1, key.len() as u64)?;
                Ok(Some(Counted {
                    units: plus(named, own_units(next))?,
                    rest: Left::Pairs(rest),
                    inside: parts_of(next),
                }))
            }
        },
    }
}

/// The sum. A sum that no number is has no memory that holds what is counted.
fn plus(units: u64, more: u64) -> Result<u64, OutOfMemory>
    ensures { IfOk result (λ n. n ≡ units + more) }
{
    units.checked_add(more).ok_or(OutOfMemory)
}
