// What is called, and what its frame begins with.
ghost use Rattle.std.specs.Prelude.{◌≡◌, IfOk, IfErr};
ghost use Rattle.eval_meaning.specs.Calls.{own_value};
ghost use Rattle.eval_work.specs.Works.{state_of, Gives};
ghost use Rattle.eval_work.specs.Kept.{Named, NamedAll, PairsNamed};
ghost use Rattle.eval_steps.specs.Frames.{called_of, prepared_by, plain_prepared};

use dsl_lib::LibraryCall;
use dsl_syntax::Func;
use dsl_value::Value;
use eval_meaning::Callee;
use eval_work::{Locals, Stop, Work, fault};
use name_work::{call_locals, function_of, takes};
use site_base::{DiagKind, Place};
use std::alloc::Global;
use std::sync::Arc;

/// What is called, without a method's own value, which is one of the arguments.
#[derive(Drop)]
pub enum Called {
    Value { value: Value, this: Value },
    Library(LibraryCall),
}

/// A function that is called, and the locals that its frame begins with.
#[derive(Drop)]
pub struct Prepared {
    pub func: Arc<Func>,
    pub locals: Locals,
}

/// What is called, and a method's own value as the first of the arguments. Only want of memory ends it early.
pub fn parted(alloc: Global, callee: Callee) -> Result<(Called, Vec<Value>), Stop>
    ensures called { IfOk result (λ p. p.0 ≡ called_of callee) }
    ensures own { IfOk result (λ p. p.1.items ≡ own_value callee) }
    ensures memory { IfErr result (λ e. e ≡ Stop.Memory) }
{
    let mut own = Vec::new(alloc);
    match callee {
        Callee::Value { value, this } => Ok((Called::Value { value, this }, own)),
        Callee::Function(call) => Ok((Called::Library(call), own)),
        Callee::Method(call, value) => {
            own.push(value)?;
            Ok((Called::Library(call), own))
        }
    }
}

/// The function that a value names, and the locals that its frame begins with. A fault where the value is no function, or where it
/// takes another number of arguments.
pub fn prepare(work: &Work, place: Place, value: &Value, args: Vec<Value>) -> Result<Prepared, Stop>
    requires value { Named work.now.store value.now }
    requires args { NamedAll work.now.store args.items }
    ensures gives { Gives plain_prepared result (state_of work.now) (prepared_by place value.now args.items (state_of work.now)) }
    ensures named { IfOk result (λ p. PairsNamed work.now.store p.locals) }
{
    match value {
        Value::Func(index) => prepared_function(work, place, *index, args),
        _ => Err(fault(work.alloc, place, DiagKind::WrongType)),
    }
}

/// The same of a function of the store.
fn prepared_function(
    work: &Work,
    place: Place,
    index: u32,
    args: Vec<Value>,
) -> Result<Prepared, Stop>
    requires index { Named work.now.store (Value.Func index) }
    requires args { NamedAll work.now.store args.items }
    ensures gives { Gives plain_prepared result (state_of work.now) (prepared_by place (Value.Func index) args.items (state_of work.now)) }
    ensures named { IfOk result (λ p. PairsNamed work.now.store p.locals) }
{
    let func = function_of(&work.store, index)?;
    if !takes(&func, args.len()) {
        return Err(fault(work.alloc, place, DiagKind::Arity));
    }
    let locals = call_locals(work, index, &func, args)?;
    Ok(Prepared { func, locals })
}
