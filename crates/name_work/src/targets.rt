// Assignments.
ghost use Rattle.std.specs.Prelude.{◌≡◌, IfOk, IfErr, [], ◌∷◌, ◌++◌};
ghost use Rattle.dsl_syntax.specs.SyntaxView.{base_view};
ghost use Rattle.dsl_value.specs.Outcomes.{made_units};
ghost use Rattle.dsl_ops.specs.Members.{set_outcome};
ghost use Rattle.eval_meaning.specs.Settled.{contents, settled};
ghost use Rattle.eval_meaning.specs.Targets.{assigned, target_of, to_local, into, put_in as put_into, put_member as member_put, inside as inside_of, made_inside, written, write_local as local_written, made_local, set_value, followed, operated_on, is_constant as constant_in, member_kind};
ghost use Rattle.eval_meaning.specs.declared.flow.Flow.TheVariants.{On};
ghost use Rattle.eval_work.specs.Works.{state_of, plain_task, Gives};
ghost use Rattle.eval_work.specs.Kept.{Named, NamedAll, IsFit, IsKept, IsStill};
ghost use Rattle.name_work.specs.Reaching.{reached};

use crate::names::local;
use dsl_ops::set_member;
use dsl_syntax::{Base, BinOp, SetOp};
use dsl_value::{Priced, Refusal, Value};
use eval_work::{Stop, Task, Work, fault, member_stop};
use site_base::{DiagKind, Place, Text};
use std::slice;

/// Assigns a value to what the keys lead to from the base.
#[tactic(auto, unfolding(eval_meaning::specs::Targets::target_of))]
pub fn assign(
    work: &mut Work,
    place: Place,
    base: &Base,
    keys: Vec<Value>,
    op: SetOp,
    value: Value,
) -> Result<(), Stop>
    requires fit { IsFit work.old }
    requires keys { NamedAll work.old.store keys.items }
    requires value { Named work.old.store value }
    ensures gives { Gives (λ _. On) result (state_of work.new) (assigned place op (target_of (base_view base.now) keys.items (state_of work.old)) value (state_of work.old)) }
    ensures kept { IfOk result (λ _. IsStill work.old work.new) }
{
    match base {
        Base::Name(name) => match local(work, name) {
            Some(local) => {
                let local = local.clone()?;
                assign_local(work, place, name, local, keys, op, value)
            }
            None => {
                let this = work.this.clone()?;
                assign_behind(work, place, this, name, keys, op, value)
            }
        },
        Base::This => {
            let this = work.this.clone()?;
            assign_into(work, place, this, keys, op, value)
        }
        Base::Globals => assign_into(work, place, Value::Ref(0), keys, op, value),
    }
}

/// Assigns to a local, or into its value.
#[tactic(auto, unfolding(eval_meaning::specs::Targets::assigned))]
fn assign_local(
    work: &mut Work,
    place: Place,
    name: &Text,
    local: Value,
    keys: Vec<Value>,
    op: SetOp,
    value: Value,
) -> Result<(), Stop>
    requires fit { IsFit work.old }
    requires local { Named work.old.store local }
    requires keys { NamedAll work.old.store keys.items }
    requires value { Named work.old.store value }
    ensures gives { Gives (λ _. On) result (state_of work.new) (assigned place op (to_local name.now local keys.items) value (state_of work.old)) }
    ensures kept { IfOk result (λ _. IsStill work.old work.new) }
{
    let value = new_value(work, place, &local, &keys, op, value)?;
    write_local(work, place, name, local, keys, value)
}

/// Gives a local a value, or follows keys into its value.
fn write_local(
    work: &mut Work,
    place: Place,
    name: &Text,
    local: Value,
    keys: Vec<Value>,
    value: Value,
) -> Result<(), Stop>
    requires fit { IsFit work.old }
    requires local { Named work.old.store local }
    requires keys { NamedAll work.old.store keys.items }
    requires value { Named work.old.store value }
    ensures gives { Gives (λ _. On) result (state_of work.new) (local_written place name.now local keys.items value (state_of work.old)) }
    ensures kept { IfOk result (λ _. IsStill work.old work.new) }
{
    if keys.is_empty() {
        return work.set_local(name, value);
    }
    match local {
        Value::Null => {
            let made = make_local(work, place, name)?;
            write(work, place, made, keys, value)
        }
        _ => write(work, place, local, keys, value),
    }
}

/// Makes a local a new dictionary.
fn make_local(work: &mut Work, place: Place, name: &Text) -> Result<Value, Stop>
    requires { IsFit work.old }
    ensures gives { Gives (λ v. v) result (state_of work.new) (made_local place name.now (state_of work.old)) }
    ensures kept { IfOk result (IsKept work.old work.new) }
{
    let made = work.make_dict(place, Vec::new(work.alloc))?;
    work.set_local(name, made.clone()?)?;
    Ok(made)
}

/// Assigns into a value, to what keys lead to behind a name.
fn assign_behind(
    work: &mut Work,
    place: Place,
    container: Value,
    name: &Text,
    keys: Vec<Value>,
    op: SetOp,
    value: Value,
) -> Result<(), Stop>
    requires fit { IsFit work.old }
    requires container { Named work.old.store container }
    requires keys { NamedAll work.old.store keys.items }
    requires value { Named work.old.store value }
    ensures gives { Gives (λ _. On) result (state_of work.new) (assigned place op (into container (Value.Str name.now ∷ keys.items)) value (state_of work.old)) }
    ensures kept { IfOk result (λ _. IsStill work.old work.new) }
{
    if keys.is_empty() {
        let key = Value::Str(name.clone()?);
        return assign_at(work, place, container, key, op, value);
    }
    let keys = behind(name, keys)?;
    assign_into(work, place, container, keys, op, value)
}

/// Assigns into a value at one key.
#[tactic(auto, unfolding(eval_meaning::specs::Targets::assigned))]
fn assign_at(
    work: &mut Work,
    place: Place,
    container: Value,
    key: Value,
    op: SetOp,
    value: Value,
) -> Result<(), Stop>
    requires fit { IsFit work.old }
    requires container { Named work.old.store container }
    requires value { Named work.old.store value }
    ensures gives { Gives (λ _. On) result (state_of work.new) (assigned place op (into container (key ∷ [])) value (state_of work.old)) }
    ensures kept { IfOk result (λ _. IsStill work.old work.new) }
{
    let value = new_value(work, place, &container, slice::from_ref(&key), op, value)?;
    put_in(work, place, &container, &key, value)
}

/// Assigns into a value.
#[tactic(auto, unfolding(eval_meaning::specs::Targets::assigned))]
fn assign_into(
    work: &mut Work,
    place: Place,
    container: Value,
    keys: Vec<Value>,
    op: SetOp,
    value: Value,
) -> Result<(), Stop>
    requires fit { IsFit work.old }
    requires container { Named work.old.store container }
    requires keys { NamedAll work.old.store keys.items }
    requires value { Named work.old.store value }
    ensures gives { Gives (λ _. On) result (state_of work.new) (assigned place op (into container keys.items) value (state_of work.old)) }
    ensures kept { IfOk result (λ _. IsStill work.old work.new) }
{
    let value = new_value(work, place, &container, &keys, op, value)?;
    write(work, place, container, keys, value)
}

/// What is written: of `+=` and its kin, what the operator gives of the value that stands there.
fn new_value(
    work: &mut Work,
    place: Place,
    container: &Value,
    keys: &[Value],
    op: SetOp,
    value: Value,
) -> Result<Value, Stop>
    requires fit { IsFit work.old }
    requires container { Named work.old.store container.now }
    requires value { Named work.old.store value }
    ensures gives { Gives (λ v. v) result (state_of work.new) (set_value place op container.now keys.now value (state_of work.old)) }
    ensures kept { IfOk result (IsKept work.old work.new) }
{
    match op {
        SetOp::Plain => Ok(value),
        SetOp::Add => operate_on(work, place, BinOp::Add, container, keys, &value),
        SetOp::Sub => operate_on(work, place, BinOp::Sub, container, keys, &value),
        SetOp::Mul => operate_on(work, place, BinOp::Mul, container, keys, &value),
        SetOp::Div => operate_on(work, place, BinOp::Div, container, keys, &value),
    }
}

/// What an operator gives of what keys lead to, and of a value.
fn operate_on(
    work: &mut Work,
    place: Place,
    op: BinOp,
    container: &Value,
    keys: &[Value],
    value: &Value,
) -> Result<Value, Stop>
    requires fit { IsFit work.old }
    requires container { Named work.old.store container.now }
    requires value { Named work.old.store value.now }
    ensures gives { Gives (λ v. v) result (state_of work.new) (operated_on place op container.now keys.now value.now (state_of work.old)) }
    ensures kept { IfOk result (IsKept work.old work.new) }
{
    let old = follow(work, place, container, keys)?;
    work.binary(place, op, &old, value)
}

/// What keys lead to in a value.
fn follow(work: &Work, place: Place, container: &Value, keys: &[Value]) -> Result<Value, Stop>
    requires container { Named work.now.store container.now }
    ensures gives { Gives (λ v. v) result (state_of work.now) (followed place container.now keys.now (state_of work.now)) }
    ensures named { IfOk result (Named work.now.store) }
{
    let mut value = container.clone()?;
    for key in keys {
        value = work.part(place, &value, key)?;
    }
    Ok(value)
}

/// Follows keys into a container, and puts a value in at the last one.
fn write(
    work: &mut Work,
    place: Place,
    container: Value,
    keys: Vec<Value>,
    value: Value,
) -> Result<(), Stop>
    requires fit { IsFit work.old }
    requires container { Named work.old.store container }
    requires keys { NamedAll work.old.store keys.items }
    requires value { Named work.old.store value }
    ensures gives { Gives (λ _. On) result (state_of work.new) (written place container keys.items value (state_of work.old)) }
    ensures kept { IfOk result (λ _. IsStill work.old work.new) }
{
    let mut keys = keys;
    match keys.pop() {
        Some(last) => write_at(work, place, container, &keys, &last, value),
        None => Err(fault(work.alloc, place, DiagKind::WrongType)),
    }
}

/// Puts a value in at a key of what others lead to.
#[tactic(auto, using(crate::proofs::Lasting::names_later))]
fn write_at(
    work: &mut Work,
    place: Place,
    container: Value,
    others: &[Value],
    last: &Value,
    value: Value,
) -> Result<(), Stop>
    requires fit { IsFit work.old }
    requires container { Named work.old.store container }
    requires value { Named work.old.store value }
    ensures gives { Gives (λ _. On) result (state_of work.new) (written place container (others.now ++ last.now ∷ []) value (state_of work.old)) }
    ensures kept { IfOk result (λ _. IsStill work.old work.new) }
{
    let reached = reach(work, place, container, others)?;
    put_in(work, place, &reached, last, value)
}

/// Follows keys into a container, where a null becomes a new dictionary.
#[tactic(auto, using(crate::proofs::Lasting::kept_same))]
fn reach(work: &mut Work, place: Place, container: Value, keys: &[Value]) -> Result<Value, Stop>
    requires fit { IsFit work.old }
    requires container { Named work.old.store container }
    ensures gives { Gives (λ v. v) result (state_of work.new) (reached place container keys.now (state_of work.old)) }
    ensures kept { IfOk result (IsKept work.old work.new) }
{
    let mut container = container;
    for key in keys {
        container = inside(work, place, container, key)?;
    }
    Ok(container)
}

/// What stands in a container at a key, or a new dictionary where that is null.
fn inside(work: &mut Work, place: Place, container: Value, key: &Value) -> Result<Value, Stop>
    requires fit { IsFit work.old }
    requires container { Named work.old.store container }
    ensures gives { Gives (λ v. v) result (state_of work.new) (inside_of place container key.now (state_of work.old)) }
    ensures kept { IfOk result (IsKept work.old work.new) }
{
    if let Value::Null = container {
        return Err(fault(work.alloc, place, DiagKind::WrongType));
    }
    let value = work.part(place, &container, key)?;
    match value {
        Value::Null => make_inside(work, place, &container, key),
        _ => Ok(value),
    }
}

/// Puts a new dictionary into a container at a key.
fn make_inside(work: &mut Work, place: Place, container: &Value, key: &Value) -> Result<Value, Stop>
    requires fit { IsFit work.old }
    requires container { Named work.old.store container.now }
    ensures gives { Gives (λ v. v) result (state_of work.new) (made_inside place container.now key.now (state_of work.old)) }
    ensures kept { IfOk result (IsKept work.old work.new) }
{
    let made = work.make_dict(place, Vec::new(work.alloc))?;
    put_in(work, place, container, key, made.clone()?)?;
    Ok(made)
}

/// Puts a value into a container at a key.
#[tactic(auto, unfolding(eval_meaning::specs::Targets::put_in))]
pub fn put_in(
    work: &mut Work,
    place: Place,
    container: &Value,
    key: &Value,
    value: Value,
) -> Result<(), Stop>
    requires fit { IsFit work.old }
    requires container { Named work.old.store container.now }
    requires value { Named work.old.store value }
    ensures gives { Gives (λ _. On) result (state_of work.new) (put_into place container.now key.now value (state_of work.old)) }
    ensures kept { IfOk result (λ _. IsStill work.old work.new) }
{
    if is_constant(&work.task, container, key) {
        return Err(fault(work.alloc, place, DiagKind::ConstSet));
    }
    put_member(work, place, container, key, value)
}

/// Puts a value into a container at a key, where no constant is in the way.
pub fn put_member(
    work: &mut Work,
    place: Place,
    container: &Value,
    key: &Value,
    value: Value,
) -> Result<(), Stop>
    requires fit { IsFit work.old }
    requires container { Named work.old.store container.now }
    requires value { Named work.old.store value }
    ensures gives { Gives (λ _. On) result (state_of work.new) (member_put place container.now key.now value (state_of work.old)) }
    ensures kept { IfOk result (λ _. IsStill work.old work.new) }
{
    write_member(work, place, container, key, value)?;
    Ok(())
}

/// Writes a value at a key.
fn write_member(
    work: &mut Work,
    place: Place,
    container: &Value,
    key: &Value,
    value: Value,
) -> Result<Value, Stop>
    requires fit { IsFit work.old }
    requires container { Named work.old.store container.now }
    requires value { Named work.old.store value }
    ensures gives { Gives (λ v. v) result (state_of work.new) (settled member_kind place (made_units (set_outcome (contents (state_of work.old)) container.now key.now value)) (set_outcome (contents (state_of work.old)) container.now key.now value) (state_of work.old)) }
    ensures kept { IfOk result (λ _. IsStill work.old work.new) }
{
    match set_member(container, key, value, work.space, &mut work.store) {
        Ok(Priced { value, units }) => {
            work.space -= units;
            Ok(value)
        }
        Err(Refusal::Fault(why)) => Err(member_stop(work.alloc, place, why)),
        Err(Refusal::SpaceLimit) => Err(fault(work.alloc, place, DiagKind::SpaceLimit)),
    }
}

/// The keys behind a name.
fn behind(name: &Text, keys: Vec<Value>) -> Result<Vec<Value>, Stop>
    ensures keys { IfOk result (λ v. v.items ≡ Value.Str name.now ∷ keys.items) }
    ensures memory { IfErr result (λ e. e ≡ Stop.Memory) }
{
    let mut all = keys;
    all.insert(0, Value::Str(name.clone()?))?;
    Ok(all)
}

/// Whether a key of a container is a constant of the load.
fn is_constant(task: &Task, container: &Value, key: &Value) -> bool
    ensures { result ≡ constant_in (plain_task task.now) container.now key.now }
{
    match (task, container, key) {
        (Task::Load(load), Value::Ref(0), Value::Str(name)) => {
            load.constants.get(name.as_str()).is_some()
        }
        _ => false,
    }
}
