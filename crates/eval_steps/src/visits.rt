// What the methods of arrays that call a function for each element begin with.
ghost use Rattle.std.specs.Prelude.{◌≡◌, IfOk, IfErr, OnOk, [], ◌∷◌};
ghost use Rattle.eval_work.specs.Works.{state_of, Gives};
ghost use Rattle.eval_work.specs.Kept.{NamedAll};
ghost use Rattle.eval_steps.specs.Visiting.{plain_visited, visited_by, with_item};
ghost use Rattle.eval_steps.specs.Named.{IsVisitedNamed};

use dsl_value::Value;
use eval_work::{Stop, Work, fault};
use site_base::{DiagKind, Place};

/// The methods of arrays that call a function for each element.
#[derive(Clone, Copy, PartialEq, Eq)]
pub enum Method {
    Map,
    Filter,
    Any,
    All,
}

/// A function, and the elements for which it is called.
#[derive(Drop)]
pub struct Visited {
    pub func: Value,
    pub items: Vec<Value>,
}

/// The function and the elements of a method's arguments. A fault where these aren't two, or where the second is no function.
pub fn visit_of(work: &Work, place: Place, args: &[Value]) -> Result<Visited, Stop>
    requires { NamedAll work.now.store args.now }
    ensures gives { Gives plain_visited result (state_of work.now) (visited_by place args.now (state_of work.now)) }
    ensures named { IfOk result (IsVisitedNamed work.now.store) }
{
    match args {
        [of, Value::Func(func)] => {
            let func = Value::Func(*func);
            let items = work.elements(of)?;
            Ok(Visited { func, items })
        }
        [_, _] => Err(fault(work.alloc, place, DiagKind::WrongType)),
        _ => Err(fault(work.alloc, place, DiagKind::Arity)),
    }
}

/// The `this` of the frame, and an element as the one argument. Only want of memory ends it early.
pub fn for_item(work: &Work, item: &Value) -> Result<(Value, Vec<Value>), Stop>
    ensures this { IfOk result (λ p. p.0 ≡ work.now.this) }
    ensures args { IfOk result (λ p. p.1.items ≡ item.now ∷ []) }
    ensures memory { IfErr result (λ e. e ≡ Stop.Memory) }
{
    let mut args = Vec::with_capacity(work.alloc, 1)?;
    args.push(item.clone()?)?;
    Ok((work.this_value()?, args))
}

/// Adds an element where it is kept. Only want of memory ends it early.
pub fn push_if(all: &mut Vec<Value>, kept: bool, item: &Value) -> Result<(), Stop>
    ensures items { OnOk result (all.new.items ≡ with_item kept item.now all.old.items) }
    ensures memory { IfErr result (λ e. e ≡ Stop.Memory) }
{
    if kept {
        all.push(item.clone()?)?;
    }
    Ok(())
}
