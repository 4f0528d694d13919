// Calls of the library.
ghost use Rattle.std.specs.Prelude.{◌≡◌, IfOk, OnOk, OnErr, length};
ghost use Rattle.std.specs.List.{AllByRecursion};
ghost use Rattle.dsl_value.specs.Grows.{Grows};
ghost use Rattle.dsl_value.specs.Outcomes.{Answered, StandsAct, after};
ghost use Rattle.dsl_value.specs.Whole.{Names};
ghost use Rattle.dsl_lib.specs.Answers.{Answers, Acts, Refused, Keeps};
ghost use Rattle.dsl_lib.specs.Library.{answer};
ghost use Rattle.dsl_lib.specs.Units.{units as units_of};

use crate::acts::{array, kept, made, texts as made_texts};
use crate::over::is_over;
use crate::{
    LibFault, Plain, arrays, cutting, dicts, joining, matching, ranges, replacing, scalars, sets,
    sorting, splitting, texts,
};
use dsl_value::{Act, Priced, Refusal, Store, Value};
use std::alloc::Global;

/// Calls a function or a method of the library, of which the first argument is the method's own value.
///
/// - `Arity` comes exactly for a number of arguments that the function doesn't take, before their types
///   are looked at.
/// - `WrongType` comes exactly for an argument of another type than the function takes, an element of `match`, `join` or
///   `sort` of another type, a text that `number` can't read, a number of `substr` or `get` that isn't whole, an end of the
///   window of `substr` inside a character, and a step of `range` that isn't above 0.
/// - `Frozen` comes exactly for an array or dictionary below the base that `add`, `set` or `remove` is to
///   change.
/// - `Overflow` never comes.
/// - After each error the store is as it was.
#[tactic(auto, using(crate::proofs::Calls::acts_answer, crate::proofs::Calls::answers_keep))]
pub fn call_plain(
    alloc: Global,
    name: Plain,
    args: &[Value],
    store: &mut Store,
) -> Result<Value, LibFault>
    requires stands { AllByRecursion (Names (length store.old.cells) (length store.old.functions)) args.now }
    ensures answer { Answers store.old (answer name store.old args.now) result store.new }
    ensures keeps { Keeps store.old store.new }
    ensures stands { IfOk result (Names (length store.new.cells) (length store.new.functions)) }
{
    let act = act_of(alloc, name, args, store)?;
    Ok(act.put_in(store)?)
}

/// What [`call_plain`] gives, with what it costs. A text that is made costs its bytes, a new array one unit and one for
/// each element, with the bytes of its texts where these are made (`keys`, `split`), a value that is put
/// in one unit (`add`, `set`), and all else nothing. `SpaceLimit` where that is more than the units that are
/// left; the faults of [`call_plain`] come first. What would cost more isn't made by `range`, `join` and
/// `replace`, and all else takes no more memory than its arguments.
#[tactic(auto, using(crate::proofs::Calls::act_answers, crate::proofs::Calls::act_after))]
pub fn call_within(
    alloc: Global,
    name: Plain,
    args: &[Value],
    units: u64,
    store: &mut Store,
) -> Result<Priced, Refusal<LibFault>>
    requires stands { AllByRecursion (Names (length store.old.cells) (length store.old.functions)) args.now }
    ensures answer { Answered Refused units (length store.old.cells) (answer name store.old args.now) (units_of name (answer name store.old args.now)) result }
    ensures names { IfOk result (λ p. Names (length store.new.cells) (length store.new.functions) p.value) }
    ensures ok { OnOk result (store.new ≡ after store.old (answer name store.old args.now)) }
    ensures grows { OnOk result (Grows 1 store.old store.new) }
    ensures err { OnErr result (store.new ≡ store.old) }
{
    if is_over(alloc, name, args, units, store) {
        return Err(Refusal::SpaceLimit);
    }
    let act = match act_of(alloc, name, args, store) {
        Ok(act) => act,
        Err(fault) => return Err(Refusal::Fault(fault)),
    };
    let Some(cost) = act.units_within(units) else {
        return Err(Refusal::SpaceLimit);
    };
    match act.put_in(store) {
        Ok(value) => Ok(Priced { value, units: cost }),
        Err(_) => Err(Refusal::Fault(LibFault::OutOfMemory)),
    }
}

/// What a call comes to.
#[tactic(auto, using(crate::proofs::Calls::made_acts, crate::proofs::Calls::kept_acts, crate::proofs::Calls::array_acts, crate::proofs::Calls::texts_acts, crate::proofs::Calls::made_stand, crate::proofs::Calls::kept_stand, crate::proofs::Calls::array_stand, crate::proofs::Calls::texts_stand))]
fn act_of<'a>(
    alloc: Global,
    name: Plain,
    args: &'a [Value],
    store: &Store,
) -> Result<Act<'a>, LibFault>
    requires stands { AllByRecursion (Names (length store.now.cells) (length store.now.functions)) args.now }
    ensures acts { Acts store.now (answer name store.now args.now) (units_of name (answer name store.now args.now)) result }
    ensures stands { IfOk result (StandsAct store.now) }
{
    match name {
        Plain::Match => made(matching::match_value(alloc, args, store)),
        Plain::Len => made(scalars::len(args, store)),
        Plain::String => made(scalars::string(alloc, args)),
        Plain::Number => made(scalars::number(args)),
        Plain::Bool => made(scalars::bool(args, store)),
        Plain::Range => array(ranges::range(alloc, args)),
        Plain::Union => array(sets::union(alloc, args, store)),
        Plain::Intersection => array(sets::intersection(alloc, args, store)),
        Plain::Keys | Plain::DictKeys => made_texts(dicts::keys(alloc, args, store)),
        Plain::Log => made(Ok(Value::Null)),
        Plain::TextLen => made(texts::len(args)),
        Plain::TextContains => made(texts::contains(args)),
        Plain::TextLower => made(texts::lower(alloc, args)),
        Plain::TextUpper => made(texts::upper(alloc, args)),
        Plain::TextTrim => made(texts::trim(alloc, args)),
        Plain::TextReplace => made(replacing::replace(alloc, args)),
        Plain::TextSplit => made_texts(splitting::split(alloc, args)),
        Plain::TextSubstr => made(cutting::substr(alloc, args)),
        Plain::ArrayLen => made(arrays::len(args, store)),
        Plain::ArrayContains => made(arrays::contains(args, store)),
        Plain::ArrayGet => kept(arrays::get(args, store)),
        Plain::ArrayAdd => arrays::add(args, store),
        Plain::ArrayJoin => made(joining::join(alloc, args, store)),
        Plain::ArraySort => array(sorting::sort(alloc, args, store)),
        Plain::DictLen => made(dicts::len(args, store)),
        Plain::DictContains => made(dicts::contains(args, store)),
        Plain::DictGet => kept(dicts::get(args, store)),
        Plain::DictSet => dicts::set(args, store),
        Plain::DictRemove => dicts::remove(args, store),
        Plain::DictValues => array(dicts::values(alloc, args, store)),
    }
}
