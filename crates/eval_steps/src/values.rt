// What members and captured names give.
ghost use Rattle.std.specs.Prelude.{IfOk};
ghost use Rattle.eval_meaning.specs.Members.{part_value};
ghost use Rattle.eval_work.specs.Works.{state_of, Gives};
ghost use Rattle.eval_work.specs.Kept.{Named, IsFit};
ghost use Rattle.eval_steps.specs.Values.{or_named as named_or, MaybeNamed};

use dsl_value::Value;
use eval_work::{Stop, Work};
use name_work::name_value;
use site_base::{Place, Text};

/// What a value has under a name, or the fault of having nothing there.
pub fn member(work: &Work, place: Place, value: &Value, name: &Text) -> Result<Value, Stop>
    requires { Named work.now.store value.now }
    ensures gives { Gives (λ v. v) result (state_of work.now) (part_value place value.now (Value.Str name.now) (state_of work.now)) }
    ensures named { IfOk result (Named work.now.store) }
{
    let key = Value::Str(name.clone()?);
    work.part(place, value, &key)
}

/// What a name of a `use` list captures: the value of its expression, or its own. A fault where it has neither.
pub fn or_named(work: &Work, place: Place, name: &Text, value: Option<Value>) -> Result<Value, Stop>
    requires fit { IsFit work.now }
    requires value { MaybeNamed work.now.store value }
    ensures gives { Gives (λ v. v) result (state_of work.now) (named_or place name.now value (state_of work.now)) }
    ensures named { IfOk result (Named work.now.store) }
{
    match value {
        Some(value) => Ok(value),
        None => name_value(work, place, name),
    }
}
