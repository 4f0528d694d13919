// Dictionaries that are merged.
ghost use Rattle.std.specs.Prelude.{◌≡◌, ◌++◌, [], ◌∷◌, ◌+◌, ◌<◌, IfOk, IfSome, IfNone, OnOk, T, length};
ghost use Rattle.dsl_value.specs.Pairs.{is_sorted};
ghost use Rattle.dsl_ops.specs.Table.{merged};

use dsl_value::{PairsLeft, Value};
use site_base::{OutOfMemory, Row, Text};
use std::alloc::Global;
use std::cmp::Ordering;

/// The pair that comes first of two dictionaries, and what is left of them.
#[derive(Drop)]
struct Next<'a> {
    pair: &'a (Text, Value),
    left: PairsLeft<'a>,
    right: PairsLeft<'a>,
}

/// The pairs of both, the right one's where both have a key.
pub(crate) fn merged_pairs<'a>(
    alloc: Global,
    left: &PairsLeft<'a>,
    right: &PairsLeft<'a>,
) -> Result<Row<(Text, Value)>, OutOfMemory>
    requires { T (is_sorted right.now) }
    ensures { IfOk result (λ r. r ≡ merged left.now right.now) }
{
    let mut pairs = Row::new(alloc);
    let mut left = left.again();
    let mut right = right.again();
    while let Some(next) = next_of(&left, &right) {
        add_pair(&mut pairs, next.pair)?;
        left = next.left;
        right = next.right;
    }
    Ok(pairs)
}

/// The pair that comes first of two dictionaries; `None` if nothing is left of them.
#[tactic(auto, using(crate::proofs::Merging::next_less, crate::proofs::Merging::next_equal, crate::proofs::Merging::next_greater, crate::proofs::Merging::next_left, crate::proofs::Merging::next_right, crate::proofs::Merging::next_none, crate::proofs::Merging::beyond_sorted))]
fn next_of<'a>(left: &PairsLeft<'a>, right: &PairsLeft<'a>) -> Option<Next<'a>>
    requires { T (is_sorted right.now) }
    ensures none { IfNone result (merged left.now right.now ≡ []) }
    ensures first { IfSome result (λ n. merged left.now right.now ≡ n.pair.now ∷ merged n.left n.right) }
    ensures sorted { IfSome result (λ n. T (is_sorted n.right)) }
    ensures less { IfSome result (λ n. length n.left + length n.right < length left.now + length right.now) }
{
    let Some((first, behind)) = left.split_first() else {
        let (pair, right) = right.split_first()?;
        let left = left.again();
        return Some(Next { pair, left, right });
    };
    let Some((other, beyond)) = right.split_first() else {
        return Some(Next {
            pair: first,
            left: behind,
            right: right.again(),
        });
    };
    match first.0.cmp(&other.0) {
        Ordering::Less => Some(Next {
            pair: first,
            left: behind,
            right: right.again(),
        }),
        Ordering::Equal => Some(Next {
            pair: other,
            left: behind,
            right: beyond,
        }),
        Ordering::Greater => Some(Next {
            pair: other,
            left: left.again(),
            right: beyond,
        }),
    }
}

/// The same pairs.
pub(crate) fn copied_pairs(
    alloc: Global,
    pairs: &PairsLeft,
) -> Result<Row<(Text, Value)>, OutOfMemory>
    ensures { IfOk result (λ r. r ≡ pairs.now) }
{
    let mut copy = Row::new(alloc);
    let mut left = pairs.again();
    while let Some((pair, behind)) = left.split_first() {
        add_pair(&mut copy, pair)?;
        left = behind;
    }
    Ok(copy)
}

fn add_pair(pairs: &mut Row<(Text, Value)>, pair: &(Text, Value)) -> Result<(), OutOfMemory>
    ensures { OnOk result (pairs.new ≡ pairs.old ++ pair.now ∷ []) }
{
    pairs.push((pair.0.clone()?, pair.1.clone()?))
}
