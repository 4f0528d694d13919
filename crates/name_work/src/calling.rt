// Functions that are called, and what is thrown.
ghost use Rattle.std.specs.Prelude.{◌≡◌, ◌<◌, ℕ, length, nat_eq, IfOk, IfErr, OnOk};
ghost use Rattle.std.specs.Arc.{arc_value};
ghost use Rattle.std.specs.List.{AllByRecursion};
ghost use Rattle.dsl_syntax.specs.declared.expr_kind.ExprKind.TheViews.{out-Func};
ghost use Rattle.dsl_value.specs.Pairs.{dict_of};
ghost use Rattle.dsl_value.specs.Whole.{Names, NamesAll};
ghost use Rattle.eval_meaning.specs.Frames.{first_locals};
ghost use Rattle.eval_meaning.specs.Functions.{bound};
ghost use Rattle.eval_work.specs.Kept.{NamedAll, PairsNamed, IsFit};
ghost use Rattle.name_work.specs.Calling.{IsFunctionAt, captured_at, IsThrown};

use crate::names::named_fault;
use dsl_syntax::Func;
use dsl_value::{Store, Value};
use eval_work::{Locals, Stop, Work, fault};
use site_base::{DiagKind, Place, Text};
use std::alloc::Global;
use std::sync::Arc;

/// A function of the store.
pub fn function_of(store: &Store, func: u32) -> Result<Arc<Func>, Stop>
    requires { func < length store.now.functions }
    ensures function { IfOk result (λ f. IsFunctionAt store.now func (arc_value f)) }
    ensures memory { IfErr result (λ e. e ≡ Stop.Memory) }
{
    Ok(store.function(func).func.clone()?)
}

/// Whether a function takes so many arguments.
pub fn takes(func: &Func, count: usize) -> bool
    ensures { result ≡ nat_eq (length (out-Func func.now).params) count }
{
    func.params.len() == count
}

/// What is thrown: a string.
pub fn thrown(alloc: Global, place: Place, value: &Value) -> Stop
    ensures { IsThrown result place value.now }
{
    match value {
        Value::Str(text) => named_fault(alloc, place, DiagKind::Thrown, text),
        _ => fault(alloc, place, DiagKind::WrongType),
    }
}

/// The locals that the frame of a call begins with: what the function captured, and its parameters.
pub fn call_locals(work: &Work, func: u32, shared: &Func, args: Vec<Value>) -> Result<Locals, Stop>
    requires func { func < length work.now.store.functions }
    requires args { NamedAll work.now.store args.items }
    requires count { length (out-Func shared.now).params ≡ length args.items }
    ensures locals { IfOk result (λ l. l ≡ first_locals (captured_at work.now.store func) (bound (out-Func shared.now).params args.items)) }
    ensures named { IfOk result (PairsNamed work.now.store) }
    ensures memory { IfErr result (λ e. e ≡ Stop.Memory) }
{
    let mut locals = Locals::new(work.alloc);
    locals.put_all(&work.store.function(func).captured)?;
    put_params(&mut locals, shared.params.as_slice(), &args)?;
    Ok(locals)
}

/// Gives parameters their values.
fn put_params(locals: &mut Locals, params: &[Text], args: &[Value]) -> Result<(), Stop>
    requires { length params.now ≡ length args.now }
    ensures locals { OnOk result (locals.new ≡ dict_of (bound params.now args.now) locals.old) }
    ensures named { (cells functions : ℕ) → NamesAll cells functions locals.old → AllByRecursion (Names cells functions) args.now → OnOk result (NamesAll cells functions locals.new) }
    ensures memory { IfErr result (λ e. e ≡ Stop.Memory) }
{
    for i in 0..params.len() {
        locals.put(&params[i], args[i].clone()?)?;
    }
    Ok(())
}
