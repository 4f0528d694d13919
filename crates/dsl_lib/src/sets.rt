// Arrays of what lies in several.
ghost use Rattle.std.specs.Prelude.{◌≡◌, List, [], ◌∷◌, ◌++◌, filter, length, Some, MatchResult, IfOk, OnOk};
ghost use Rattle.std.specs.List.{AllByRecursion, flat_map};
ghost use Rattle.dsl_value.specs.Whole.{Names};
ghost use Rattle.dsl_value.specs.declared.value.Value.{Value};
ghost use Rattle.dsl_ops.specs.Seen.{found_in};
ghost use Rattle.dsl_lib.specs.Answers.{ReturnsArray, IsWrong};
ghost use Rattle.dsl_lib.specs.Arguments.{items_in};
ghost use Rattle.dsl_lib.specs.Arrays.{all_in, has_equal};
ghost use Rattle.dsl_lib.specs.Sets.{distinct as distinct_of, union as union_answer, is_common, intersection as intersection_answer};

use crate::LibFault;
use crate::answers::copies;
use crate::args::items;
use crate::distinct::Distinct;
use dsl_ops::{Seen, seen_of};
use dsl_value::{Store, Value};
use site_base::{OutOfMemory, Row};
use std::alloc::Global;

/// `union(array, ..)`: a new array of the distinct elements, in the order in which each first comes.
pub(crate) fn union(alloc: Global, args: &[Value], store: &Store) -> Result<Row<Value>, LibFault>
    requires stands { AllByRecursion (Names (length store.now.cells) (length store.now.functions)) args.now }
    ensures answer { ReturnsArray (union_answer store.now args.now) result }
    ensures stands { IfOk result (AllByRecursion (Names (length store.now.cells) (length store.now.functions))) }
{
    if args.is_empty() {
        return Err(LibFault::Arity);
    }
    united(alloc, args, store)
}

/// The distinct elements of arrays.
fn united(alloc: Global, arrays: &[Value], store: &Store) -> Result<Row<Value>, LibFault>
    requires { AllByRecursion (Names (length store.now.cells) (length store.now.functions)) arrays.now }
    ensures items { MatchResult result (λ row. (xss : List (List Value)) × (all_in (items_in store.now.cells) arrays.now ≡ Some xss) × (row ≡ distinct_of store.now.cells [] (flat_map (λ xs. xs) xss))) (IsWrong (all_in (items_in store.now.cells) arrays.now)) }
    ensures stands { IfOk result (AllByRecursion (Names (length store.now.cells) (length store.now.functions))) }
{
    let mut taken = Distinct::new(alloc);
    for array in arrays {
        taken.take_all(items(array, store)?, store)?;
    }
    Ok(taken.into_items())
}

/// `intersection(array, ..)`: a new array of the distinct ones of the first array's elements that are in all.
pub(crate) fn intersection(
    alloc: Global,
    args: &[Value],
    store: &Store,
) -> Result<Row<Value>, LibFault>
    requires stands { AllByRecursion (Names (length store.now.cells) (length store.now.functions)) args.now }
    ensures answer { ReturnsArray (intersection_answer store.now args.now) result }
    ensures stands { IfOk result (AllByRecursion (Names (length store.now.cells) (length store.now.functions))) }
{
    let [first, others @ ..] = args else {
        return Err(LibFault::Arity);
    };
    let kept = kept_in_all(alloc, items(first, store)?, others, store)?;
    Ok(without_repeats(alloc, kept.as_slice(), store)?)
}

/// The distinct ones of some values.
fn without_repeats(
    alloc: Global,
    values: &[Value],
    store: &Store,
) -> Result<Row<Value>, OutOfMemory>
    requires { AllByRecursion (Names (length store.now.cells) (length store.now.functions)) values.now }
    ensures items { IfOk result (λ row. row ≡ distinct_of store.now.cells [] values.now) }
    ensures stands { IfOk result (AllByRecursion (Names (length store.now.cells) (length store.now.functions))) }
{
    let mut taken = Distinct::new(alloc);
    taken.take_all(values, store)?;
    Ok(taken.into_items())
}

/// The ones of some values that are in all of some arrays.
fn kept_in_all(
    alloc: Global,
    values: &[Value],
    arrays: &[Value],
    store: &Store,
) -> Result<Row<Value>, LibFault>
    requires values { AllByRecursion (Names (length store.now.cells) (length store.now.functions)) values.now }
    requires arrays { AllByRecursion (Names (length store.now.cells) (length store.now.functions)) arrays.now }
    ensures kept { MatchResult result (λ row. (xss : List (List Value)) × (all_in (items_in store.now.cells) arrays.now ≡ Some xss) × (row ≡ filter (is_common store.now.cells xss) values.now)) (IsWrong (all_in (items_in store.now.cells) arrays.now)) }
    ensures stands { IfOk result (AllByRecursion (Names (length store.now.cells) (length store.now.functions))) }
{
    let mut kept = copies(alloc, values)?;
    for array in arrays {
        let fewer = kept_in(alloc, kept.as_slice(), items(array, store)?, store)?;
        kept = fewer;
    }
    Ok(kept)
}

/// The ones of some values that equal one of others.
#[tactic(auto, using(dsl_ops::proofs::Among::seen_cells))]
fn kept_in(
    alloc: Global,
    values: &[Value],
    others: &[Value],
    store: &Store,
) -> Result<Row<Value>, OutOfMemory>
    requires values { AllByRecursion (Names (length store.now.cells) (length store.now.functions)) values.now }
    requires others { AllByRecursion (Names (length store.now.cells) (length store.now.functions)) others.now }
    ensures kept { IfOk result (λ row. row ≡ filter (has_equal store.now.cells others.now) values.now) }
    ensures stands { IfOk result (AllByRecursion (Names (length store.now.cells) (length store.now.functions))) }
{
    let seen = seen_of(alloc, others, store)?;
    let mut kept = Row::new(alloc);
    for value in values {
        keep_seen(&mut kept, value, &seen, store)?;
    }
    Ok(kept)
}

/// Keeps a value behind others, where one that was seen is equal to it.
fn keep_seen(
    kept: &mut Row<Value>,
    value: &Value,
    seen: &Seen,
    store: &Store,
) -> Result<(), OutOfMemory>
    requires value { Names (length store.now.cells) (length store.now.functions) value.now }
    requires cells { AllByRecursion (Names (length store.now.cells) (length store.now.functions)) seen.now.cells }
    ensures { OnOk result (kept.new ≡ kept.old ++ filter (found_in store.now.cells seen.now) (value.now ∷ [])) }
{
    if seen.contains(value, store) {
        kept.push(value.clone()?)?;
    }
    Ok(())
}
