// The methods of dictionaries.
ghost use Rattle.std.specs.Prelude.{◌≡◌, ◌<◌, IfOk, map, length};
ghost use Rattle.std.specs.List.{AllByRecursion};
ghost use Rattle.dsl_value.specs.Whole.{Names};
ghost use Rattle.dsl_value.specs.Outcomes.{made_units, StandsAct};
ghost use Rattle.dsl_lib.specs.Answers.{Returns, ReturnsArray, Acts};
ghost use Rattle.dsl_lib.specs.Dicts.{key_of, value_of, keys as keys_answer, values as values_answer, len as len_answer, contains as contains_answer, get as get_answer, set as set_answer, remove as remove_answer};

use crate::LibFault;
use crate::answers::copied;
use crate::args::{dict, held_text, is_frozen, one, pairs, text, three, two};
use crate::scalars::whole;
use dsl_value::{Act, Change, SortedPairs, Store, Value};
use site_base::{OutOfMemory, Row};
use std::alloc::Global;

/// `keys(dictionary)` and `dictionary.keys()`: a new array of the keys.
pub(crate) fn keys(alloc: Global, args: &[Value], store: &Store) -> Result<Row<Value>, LibFault>
    requires stands { AllByRecursion (Names (length store.now.cells) (length store.now.functions)) args.now }
    ensures answer { ReturnsArray (keys_answer store.now args.now) result }
    ensures stands { IfOk result (AllByRecursion (Names (length store.now.cells) (length store.now.functions))) }
{
    Ok(key_values(alloc, pairs(one(args)?, store)?)?)
}

fn key_values(alloc: Global, pairs: &SortedPairs) -> Result<Row<Value>, OutOfMemory>
    ensures { IfOk result (λ row. row ≡ map key_of pairs.now) }
{
    let mut keys = Row::new(alloc);
    let mut left = pairs.left();
    while let Some((pair, behind)) = left.split_first() {
        keys.push(Value::Str(pair.0.clone()?))?;
        left = behind;
    }
    Ok(keys)
}

/// `dictionary.values()`: a new array of the values, in the order of their keys.
pub(crate) fn values(alloc: Global, args: &[Value], store: &Store) -> Result<Row<Value>, LibFault>
    requires stands { AllByRecursion (Names (length store.now.cells) (length store.now.functions)) args.now }
    ensures answer { ReturnsArray (values_answer store.now args.now) result }
    ensures stands { IfOk result (AllByRecursion (Names (length store.now.cells) (length store.now.functions))) }
{
    Ok(copied_values(alloc, pairs(one(args)?, store)?)?)
}

fn copied_values(alloc: Global, pairs: &SortedPairs) -> Result<Row<Value>, OutOfMemory>
    ensures { IfOk result (λ row. row ≡ map value_of pairs.now) }
{
    let mut values = Row::new(alloc);
    let mut left = pairs.left();
    while let Some((pair, behind)) = left.split_first() {
        values.push(pair.1.clone()?)?;
        left = behind;
    }
    Ok(values)
}

/// `dictionary.len()`
pub(crate) fn len(args: &[Value], store: &Store) -> Result<Value, LibFault>
    requires { AllByRecursion (Names (length store.now.cells) (length store.now.functions)) args.now }
    ensures answer { Returns (len_answer store.now args.now) result }
    ensures stands { IfOk result (Names (length store.now.cells) (length store.now.functions)) }
{
    whole(pairs(one(args)?, store)?.len())
}

/// `dictionary.contains(key)`
pub(crate) fn contains(args: &[Value], store: &Store) -> Result<Value, LibFault>
    requires { AllByRecursion (Names (length store.now.cells) (length store.now.functions)) args.now }
    ensures answer { Returns (contains_answer store.now args.now) result }
    ensures stands { IfOk result (Names (length store.now.cells) (length store.now.functions)) }
{
    let (of, key) = two(args)?;
    let cell = dict(of, store)?;
    Ok(Value::Bool(store.get(cell, text(key)?).is_some()))
}

/// `dictionary.get(key)`: the key's value, or null.
pub(crate) fn get(args: &[Value], store: &Store) -> Result<Value, LibFault>
    requires { AllByRecursion (Names (length store.now.cells) (length store.now.functions)) args.now }
    ensures answer { Returns (get_answer store.now args.now) result }
    ensures stands { IfOk result (Names (length store.now.cells) (length store.now.functions)) }
{
    let (of, key) = two(args)?;
    let cell = dict(of, store)?;
    match store.get(cell, text(key)?) {
        Some(value) => copied(value),
        None => Ok(Value::Null),
    }
}

/// `dictionary.set(key, value)`
pub(crate) fn set(args: &[Value], store: &Store) -> Result<Act<'static>, LibFault>
    requires { AllByRecursion (Names (length store.now.cells) (length store.now.functions)) args.now }
    ensures acts { Acts store.now (set_answer store.now args.now) (made_units (set_answer store.now args.now)) result }
    ensures stands { IfOk result (StandsAct store.now) }
{
    let (of, key, value) = three(args)?;
    let cell = dict(of, store)?;
    let key = held_text(key)?;
    if is_frozen(cell, store) {
        return Err(LibFault::Frozen);
    }
    Ok(Act::Write(cell, Change::Set(key.clone()?, copied(value)?)))
}

/// `dictionary.remove(key)`
pub(crate) fn remove<'a>(args: &'a [Value], store: &Store) -> Result<Act<'a>, LibFault>
    requires { AllByRecursion (Names (length store.now.cells) (length store.now.functions)) args.now }
    ensures acts { Acts store.now (remove_answer store.now args.now) 0 result }
    ensures stands { IfOk result (StandsAct store.now) }
{
    let (of, key) = two(args)?;
    let cell = dict(of, store)?;
    let key = text(key)?;
    if is_frozen(cell, store) {
        return Err(LibFault::Frozen);
    }
    Ok(Act::Write(cell, Change::Remove(key)))
}
