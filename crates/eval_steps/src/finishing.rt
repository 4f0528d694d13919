// How statements that evaluate one expression end.
ghost use Rattle.std.specs.Prelude.{◌≡◌, IfOk};
ghost use Rattle.eval_work.specs.Works.{state_of, Gives};
ghost use Rattle.eval_work.specs.Kept.{IsFit, IsFlowKept};
ghost use Rattle.eval_steps.specs.Finishing.{admitted, finished};
ghost use Rattle.eval_steps.specs.Values.{or_null as null_or, MaybeNamed};

use dsl_value::Value;
use eval_meaning::Flow;
use eval_work::{Stop, Work};
use load_work::{at_load, set_constant};
use name_work::thrown;
use site_base::{Place, Text};

/// What a statement does with the value of its expression.
#[derive(Clone, Copy)]
pub enum Then<'a> {
    Dropped,
    Returned,
    Thrown,
    Local(&'a Text),
    Constant(&'a Text),
}

/// Constants have a place only at a load: elsewhere they are a fault.
pub fn admit(work: &Work, place: Place, then: Then) -> Result<(), Stop>
    ensures { Gives (λ _. tt) result (state_of work.now) (admitted place then.entry (state_of work.now)) }
{
    match then {
        Then::Constant(_) => at_load(work, place),
        _ => Ok(()),
    }
}

/// Does with the value what the statement says. What is thrown is a fault, and so is a constant that can't be set.
pub fn finish(work: &mut Work, place: Place, then: Then, value: Option<Value>) -> Result<Flow, Stop>
    requires fit { IsFit work.old }
    requires value { MaybeNamed work.old.store value }
    ensures gives { Gives (λ f. f) result (state_of work.new) (finished place then.entry value (state_of work.old)) }
    ensures kept { IfOk result (IsFlowKept work.old work.new) }
{
    let value = or_null(value);
    match then {
        Then::Dropped => Ok(Flow::On),
        Then::Returned => Ok(Flow::Returned(value)),
        Then::Thrown => Err(thrown(work.alloc, place, &value)),
        Then::Local(name) => {
            work.set_local(name, value)?;
            Ok(Flow::On)
        }
        Then::Constant(name) => {
            set_constant(work, place, name, value)?;
            Ok(Flow::On)
        }
    }
}

/// Without an expression the value is null.
fn or_null(value: Option<Value>) -> Value
    ensures { result ≡ null_or value }
{
    match value {
        Some(value) => value,
        None => Value::Null,
    }
}
