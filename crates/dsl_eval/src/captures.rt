// What functions and bodies capture.
ghost use Rattle.std.specs.Prelude.{IfOk, []};
ghost use Rattle.std.specs.Arc.{arc_value};
ghost use Rattle.dsl_syntax.specs.SyntaxView.{uses_view, func_view};
ghost use Rattle.eval_meaning.specs.Functions.{captured_with, function_with};
ghost use Rattle.eval_work.specs.Works.{state_of, Gives};
ghost use Rattle.eval_work.specs.Kept.{IsFit, IsKept, ArePairsKept, IsTold};
ghost use Rattle.dsl_eval.specs.Nodes.{parts};

use crate::expressions::eval_maybe;
use dsl_syntax::{Func, Use};
use dsl_value::Value;
use eval_steps::or_named;
use eval_work::{Locals, Stop, Work, WorldView};
use site_base::Place;
use std::sync::Arc;

/// The names of a `use` list with their values.
#[cycle(eval)]
pub(crate) fn eval_captures(
    view: &WorldView,
    work: &mut Work,
    depth: u32,
    place: Place,
    uses: &[Use],
) -> Result<Locals, Stop>
    requires fit { IsFit work.old }
    requires told { IsTold view.now work.old.store }
    ensures gives { Gives (λ v. v) result (state_of work.new) (captured_with (parts view.now depth) place (uses_view uses.now) [] (state_of work.old)) }
    ensures kept { IfOk result (ArePairsKept work.old work.new) }
{
    let mut all = Locals::new(work.alloc);
    for used in uses {
        let value = eval_maybe(view, work, depth, used.expr.as_ref())?;
        let value = or_named(work, place, &used.name, value)?;
        all.put(&used.name, value)?;
    }
    Ok(all)
}

/// Makes a function.
#[cycle(eval)]
pub(crate) fn make_function(
    view: &WorldView,
    work: &mut Work,
    depth: u32,
    place: Place,
    func: &Arc<Func>,
) -> Result<Value, Stop>
    requires fit { IsFit work.old }
    requires told { IsTold view.now work.old.store }
    ensures gives { Gives (λ v. v) result (state_of work.new) (function_with (parts view.now depth) place (func_view (arc_value func.now)) (state_of work.old)) }
    ensures kept { IfOk result (IsKept work.old work.new) }
{
    let captured = eval_captures(view, work, depth, place, &func.uses)?;
    work.make_function(func, captured)
}
