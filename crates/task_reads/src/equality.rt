// Whether two trees are equal.
ghost use Rattle.std.specs.Prelude.{◌≡◌, ◌+◌, ◌*◌, IfOk};
ghost use Rattle.std.specs.Bool.{Decides};
ghost use Rattle.site_base.specs.View.{view, items_view, pairs_view};
ghost use Rattle.site_base.specs.Weight.{weight, items_weight, pairs_weight};
ghost use Rattle.task_reads.specs.Lefts.{IsOpened, IsSame, IsStep, left_work};

use site_base::{OutOfMemory, Text, Tree};
use std::alloc::Global;

/// The parts of two lists or dictionaries that aren't compared yet.
#[derive(Clone, Copy)]
pub(crate) enum Left<'a> {
    Items(&'a [Tree], &'a [Tree]),
    Pairs(&'a [(Text, Tree)], &'a [(Text, Tree)]),
}

/// What comes of the first two of the parts that are left.
#[derive(Clone, Copy)]
pub(crate) enum Step<'a> {
    /// No part is left on either side.
    Ended,
    /// They are different, or one side has no part.
    Unequal,
    /// What is inside of them is left to compare, and the others.
    On { inside: Left<'a>, rest: Left<'a> },
}

/// Whether two trees are equal. However deep the trees are, this takes no more stack.
///
/// # Errors
///
/// `OutOfMemory` if there is none for the parts that are left to compare.
#[tactic(auto, using(crate::proofs::Ends::works_end))]
pub(crate) fn are_equal(alloc: Global, one: &Tree, other: &Tree) -> Result<bool, OutOfMemory>
    ensures { IfOk result (λ equal. Decides equal (view one.now ≡ view other.now)) }
{
    let mut open = Vec::new(alloc);
    match opened(one, other) {
        Some(left) => open.push(left)?,
        None => return Ok(false),
    }
    while let Some(left) = open.pop() {
        match compare(left) {
            Step::Ended => {}
            Step::Unequal => return Ok(false),
            Step::On { inside, rest } => {
                open.push(rest)?;
                open.push(inside)?;
            }
        }
    }
    Ok(true)
}

/// The parts of two trees that are equal if these are; nothing if they aren't in any case.
fn opened<'a>(one: &'a Tree, other: &'a Tree) -> Option<Left<'a>>
    ensures { IsOpened (weight one.now) (view one.now ≡ view other.now) result }
{
    match (one, other) {
        (Tree::Null, Tree::Null) => Some(Left::Items(&[], &[])),
        (Tree::Bool(one), Tree::Bool(other)) if one == other => Some(Left::Items(&[], &[])),
        (Tree::Number(one), Tree::Number(other)) if one == other => Some(Left::Items(&[], &[])),
        (Tree::Str(one), Tree::Str(other)) if one == other => Some(Left::Items(&[], &[])),
        (Tree::List(one), Tree::List(other)) => Some(Left::Items(one, other)),
        (Tree::Dict(one), Tree::Dict(other)) => Some(Left::Pairs(one, other)),
        _ => None,
    }
}

/// Compares the first two of the parts that are left.
fn compare(left: Left<'_>) -> Step<'_>
    ensures { IsStep (left_work left.entry) (IsSame left.entry) result }
{
    match left {
        Left::Items(one, other) => compare_items(one, other),
        Left::Pairs(one, other) => compare_pairs(one, other),
    }
}

#[tactic(auto, using(crate::proofs::Opened::no_items))]
fn compare_items<'a>(one: &'a [Tree], other: &'a [Tree]) -> Step<'a>
    ensures { IsStep (1 + 2 * items_weight one.now) (items_view one.now ≡ items_view other.now) result }
{
    let Some((first, rest)) = one.split_first() else {
        return if other.is_empty() {
            Step::Ended
        } else {
            Step::Unequal
        };
    };
    let Some((second, others)) = other.split_first() else {
        return Step::Unequal;
    };
    match opened(first, second) {
        Some(inside) => Step::On {
            inside,
            rest: Left::Items(rest, others),
        },
        None => Step::Unequal,
    }
}

#[tactic(auto, using(crate::proofs::Opened::no_pairs))]
fn compare_pairs<'a>(one: &'a [(Text, Tree)], other: &'a [(Text, Tree)]) -> Step<'a>
    ensures { IsStep (1 + 2 * pairs_weight one.now) (pairs_view one.now ≡ pairs_view other.now) result }
{
    let Some(((key, first), rest)) = one.split_first() else {
        return if other.is_empty() {
            Step::Ended
        } else {
            Step::Unequal
        };
    };
    let Some(((name, second), others)) = other.split_first() else {
        return Step::Unequal;
    };
    if key != name {
        return Step::Unequal;
    }
    match opened(first, second) {
        Some(inside) => Step::On {
            inside,
            rest: Left::Pairs(rest, others),
        },
        None => Step::Unequal,
    }
}
