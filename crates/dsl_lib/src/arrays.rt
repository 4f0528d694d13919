// The methods of arrays.
ghost use Rattle.std.specs.Prelude.{◌≡◌, ◌<◌, length, MatchResult, IfOk};
ghost use Rattle.std.specs.List.{AllByRecursion};
ghost use Rattle.dsl_value.specs.Whole.{Names};
ghost use Rattle.dsl_value.specs.Outcomes.{made_units, StandsAct};
ghost use Rattle.dsl_lib.specs.Answers.{Returns, Acts};
ghost use Rattle.dsl_lib.specs.Arrays.{len as len_answer, has_equal, contains as contains_answer, element as element_of, get as get_answer, add as add_answer};

use crate::answers::copied;
use crate::args::{array, is_frozen, items, number, one, two};
use crate::scalars::whole;
use crate::{LibFault, cutting};
use dsl_value::{Act, Change, Store, Value, equal};

/// `array.len()`
pub(crate) fn len(args: &[Value], store: &Store) -> Result<Value, LibFault>
    requires { AllByRecursion (Names (length store.now.cells) (length store.now.functions)) args.now }
    ensures answer { Returns (len_answer store.now args.now) result }
    ensures stands { IfOk result (Names (length store.now.cells) (length store.now.functions)) }
{
    whole(items(one(args)?, store)?.len())
}

/// `array.contains(value)`
pub(crate) fn contains(args: &[Value], store: &Store) -> Result<Value, LibFault>
    requires { AllByRecursion (Names (length store.now.cells) (length store.now.functions)) args.now }
    ensures answer { Returns (contains_answer store.now args.now) result }
    ensures stands { IfOk result (Names (length store.now.cells) (length store.now.functions)) }
{
    let (of, value) = two(args)?;
    let items = items(of, store)?;
    Ok(Value::Bool(has(items, value, store)))
}

/// Whether one of some values is equal to a value.
pub(crate) fn has(items: &[Value], value: &Value, store: &Store) -> bool
    requires items { AllByRecursion (Names (length store.now.cells) (length store.now.functions)) items.now }
    requires value { Names (length store.now.cells) (length store.now.functions) value.now }
    ensures { result ≡ has_equal store.now.cells items.now value.now }
{
    for item in items {
        if equal(item, value, store) {
            return true;
        }
    }
    false
}

/// `array.get(index)`: the element, or null out of range.
pub(crate) fn get(args: &[Value], store: &Store) -> Result<Value, LibFault>
    requires { AllByRecursion (Names (length store.now.cells) (length store.now.functions)) args.now }
    ensures answer { Returns (get_answer store.now args.now) result }
    ensures stands { IfOk result (Names (length store.now.cells) (length store.now.functions)) }
{
    let (of, index) = two(args)?;
    let items = items(of, store)?;
    element(items, cutting::whole_number(number(index)?)?)
}

fn element(items: &[Value], index: i64) -> Result<Value, LibFault>
    ensures { MatchResult result (λ v. v ≡ element_of items.now index) (λ e. e ≡ LibFault.OutOfMemory) }
{
    let Ok(index) = usize::try_from(index) else {
        return Ok(Value::Null);
    };
    match items.get(index) {
        Some(item) => copied(item),
        None => Ok(Value::Null),
    }
}

/// `array.add(value)`
pub(crate) fn add(args: &[Value], store: &Store) -> Result<Act<'static>, LibFault>
    requires { AllByRecursion (Names (length store.now.cells) (length store.now.functions)) args.now }
    ensures acts { Acts store.now (add_answer store.now args.now) (made_units (add_answer store.now args.now)) result }
    ensures stands { IfOk result (StandsAct store.now) }
{
    let (of, value) = two(args)?;
    let cell = array(of, store)?;
    if is_frozen(cell, store) {
        return Err(LibFault::Frozen);
    }
    Ok(Act::Write(cell, Change::Push(copied(value)?)))
}
