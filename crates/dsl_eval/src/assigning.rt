// Assignments.
ghost use Rattle.std.specs.Prelude.{IfOk, []};
ghost use Rattle.dsl_syntax.specs.SyntaxView.{expr_view, steps_view, base_view, step_view};
ghost use Rattle.eval_meaning.specs.Targets.{keys_with, set_with};
ghost use Rattle.eval_work.specs.Works.{state_of, Gives};
ghost use Rattle.eval_work.specs.Kept.{IsFit, IsKept, AreKept, IsFlowKept, IsTold};
ghost use Rattle.dsl_eval.specs.Nodes.{parts};
ghost use Rattle.eval_steps.specs.Values.{key_with};

use crate::expressions::eval_at;
use dsl_syntax::{Base, Expr, SetOp, Step};
use dsl_value::Value;
use eval_meaning::Flow;
use eval_work::{Stop, Work, WorldView};
use name_work::assign;
use site_base::Place;

/// Assigns: the keys of the target, then the right side, and only then the target is found.
#[cycle(eval)]
pub(crate) fn run_set(
    view: &WorldView,
    work: &mut Work,
    depth: u32,
    place: Place,
    base: &Base,
    steps: &[Step],
    op: SetOp,
    expr: &Expr,
) -> Result<Flow, Stop>
    requires fit { IsFit work.old }
    requires told { IsTold view.now work.old.store }
    ensures gives { Gives (λ f. f) result (state_of work.new) (set_with (parts view.now depth) place (base_view base.now) (steps_view steps.now) op (expr_view expr.now) (state_of work.old)) }
    ensures kept { IfOk result (IsFlowKept work.old work.new) }
{
    let keys = eval_keys(view, work, depth, steps)?;
    let value = eval_at(view, work, depth, expr)?;
    assign(work, place, base, keys, op, value)?;
    Ok(Flow::On)
}

/// The keys of steps, from left to right.
#[cycle(eval)]
fn eval_keys(
    view: &WorldView,
    work: &mut Work,
    depth: u32,
    steps: &[Step],
) -> Result<Vec<Value>, Stop>
    requires fit { IsFit work.old }
    requires told { IsTold view.now work.old.store }
    ensures gives { Gives (λ v. v.items) result (state_of work.new) (keys_with (parts view.now depth) (steps_view steps.now) [] (state_of work.old)) }
    ensures kept { IfOk result (λ v. AreKept work.old work.new v.items) }
{
    let mut all = Vec::new(work.alloc);
    for step in steps {
        let key = eval_key(view, work, depth, step)?;
        all.push(key)?;
    }
    Ok(all)
}

/// The key of a step.
#[cycle(eval)]
fn eval_key(view: &WorldView, work: &mut Work, depth: u32, step: &Step) -> Result<Value, Stop>
    requires fit { IsFit work.old }
    requires told { IsTold view.now work.old.store }
    ensures gives { Gives (λ v. v) result (state_of work.new) (key_with (parts view.now depth) (step_view step.now) (state_of work.old)) }
    ensures kept { IfOk result (IsKept work.old work.new) }
{
    match step {
        Step::Member(name) => Ok(Value::Str(name.clone()?)),
        Step::Index(expr) => eval_at(view, work, depth, expr),
    }
}
