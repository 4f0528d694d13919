// Names.
ghost use Rattle.std.specs.Prelude.{◌≡◌, ◌<◌, Some, None, length, IfOk, IfSome, IfNone};
ghost use Rattle.dsl_value.specs.Contents.{cell_at};
ghost use Rattle.dsl_value.specs.Pairs.{find};
ghost use Rattle.eval_meaning.specs.Frames.{name_in, named, name_value as value_named};
ghost use Rattle.eval_meaning.specs.Calls.{name_called, member_called, part_called};
ghost use Rattle.eval_work.specs.Works.{state_of, Gives, IsNamedFault};
ghost use Rattle.eval_work.specs.Kept.{Named, IsFit, CalleeNamed};

use dsl_lib::LibraryCall;
use dsl_value::{Cell, Store, Value};
use eval_meaning::Callee;
use eval_work::{Stop, Work};
use site_base::{DiagKind, Place, Text, quote};
use std::alloc::Global;

/// The value of a name in a dictionary; another value has none.
pub(crate) fn in_dict<'a>(store: &'a Store, value: &Value, name: &Text) -> Option<&'a Value>
    requires { Named store.now value.now }
    ensures found { IfSome result (λ v. (name_in store.now.cells name.now value.now ≡ Some v.now) × Named store.now v.now) }
    ensures absent { IfNone result (name_in store.now.cells name.now value.now ≡ None) }
{
    match value {
        Value::Ref(cell) => in_cell(store, *cell, name),
        _ => None,
    }
}

fn in_cell<'a>(store: &'a Store, cell: u32, name: &Text) -> Option<&'a Value>
    requires { cell < length store.now.cells }
    ensures found { IfSome result (λ v. (name_in store.now.cells name.now (Value.Ref cell) ≡ Some v.now) × Named store.now v.now) }
    ensures absent { IfNone result (name_in store.now.cells name.now (Value.Ref cell) ≡ None) }
{
    match store.cell(cell) {
        Cell::Dict(pairs) => pairs.get(name.as_str()),
        Cell::Array(_) => None,
    }
}

/// A fault that names something.
pub fn named_fault(alloc: Global, place: Place, kind: DiagKind, name: &Text) -> Stop
    ensures { IsNamedFault result place kind name.now }
{
    match quote(alloc, name.as_str()) {
        Ok(text) => Stop::Fault { place, kind, text },
        Err(_) => Stop::Memory,
    }
}

/// The value of a local.
pub(crate) fn local<'a>(work: &'a Work, name: &Text) -> Option<&'a Value>
    requires { IsFit work.now }
    ensures found { IfSome result (λ v. find name.now work.now.locals ≡ Some v.now) }
    ensures absent { IfNone result (find name.now work.now.locals ≡ None) }
    ensures named { IfSome result (λ v. Named work.now.store v.now) }
{
    work.locals.get(name.as_str())
}

/// Looks a name up.
#[tactic(auto, unfolding(eval_meaning::specs::Frames::named))]
fn look_up<'a>(work: &'a Work, name: &Text) -> Option<&'a Value>
    requires { IsFit work.now }
    ensures found { IfSome result (λ v. (named name.now (state_of work.now) ≡ Some v.now) × Named work.now.store v.now) }
    ensures absent { IfNone result (named name.now (state_of work.now) ≡ None) }
{
    if let Some(value) = local(work, name) {
        return Some(value);
    }
    if let Some(value) = in_dict(&work.store, &work.this, name) {
        return Some(value);
    }
    in_cell(&work.store, 0, name)
}

/// The value of a name.
pub fn name_value(work: &Work, place: Place, name: &Text) -> Result<Value, Stop>
    requires { IsFit work.now }
    ensures gives { Gives (λ v. v) result (state_of work.now) (value_named place name.now (state_of work.now)) }
    ensures named { IfOk result (Named work.now.store) }
{
    match look_up(work, name) {
        Some(value) => Ok(value.clone()?),
        None => Err(named_fault(work.alloc, place, DiagKind::Undefined, name)),
    }
}

/// What a name that is called is.
pub fn called_name(work: &Work, place: Place, name: &Text) -> Result<Callee, Stop>
    requires { IsFit work.now }
    ensures gives { Gives (λ c. c) result (state_of work.now) (name_called place name.now (named name.now (state_of work.now)) (state_of work.now)) }
    ensures named { IfOk result (CalleeNamed work.now.store) }
{
    match look_up(work, name) {
        Some(value) => Ok(Callee::Value {
            value: value.clone()?,
            this: work.this.clone()?,
        }),
        None => match LibraryCall::function(name.as_str()) {
            Some(call) => Ok(Callee::Function(call)),
            None => Err(named_fault(work.alloc, place, DiagKind::Undefined, name)),
        },
    }
}

/// What a member that is called is.
pub fn called_member(work: &Work, place: Place, value: Value, name: &Text) -> Result<Callee, Stop>
    requires fit { IsFit work.now }
    requires value { Named work.now.store value }
    ensures gives { Gives (λ c. c) result (state_of work.now) (member_called place value name.now (name_in work.now.store.cells name.now value) (state_of work.now)) }
    ensures named { IfOk result (CalleeNamed work.now.store) }
{
    if let Some(own) = in_dict(&work.store, &value, name) {
        return Ok(Callee::Value {
            value: own.clone()?,
            this: value,
        });
    }
    match LibraryCall::method(&value, name.as_str(), &work.store) {
        Some(call) => Ok(Callee::Method(call, value)),
        None => {
            let key = Value::Str(name.clone()?);
            called_part(work, place, value, &key)
        }
    }
}

/// What is called at an index.
pub fn called_part(work: &Work, place: Place, value: Value, key: &Value) -> Result<Callee, Stop>
    requires fit { IsFit work.now }
    requires value { Named work.now.store value }
    ensures gives { Gives (λ c. c) result (state_of work.now) (part_called place value key.now (state_of work.now)) }
    ensures named { IfOk result (CalleeNamed work.now.store) }
{
    let found = work.part(place, &value, key)?;
    Ok(Callee::Value {
        value: found,
        this: value,
    })
}
