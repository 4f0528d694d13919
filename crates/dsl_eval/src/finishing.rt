// Statements that evaluate one expression and then end.
ghost use Rattle.std.specs.Prelude.{IfOk};
ghost use Rattle.std.specs.Option.{option_copied};
ghost use Rattle.dsl_syntax.specs.SyntaxView.{maybe_expr_view};
ghost use Rattle.eval_work.specs.Works.{state_of, Gives};
ghost use Rattle.eval_work.specs.Kept.{IsFit, IsFlowKept, IsTold};
ghost use Rattle.dsl_eval.specs.Nodes.{parts};
ghost use Rattle.eval_steps.specs.Finishing.{valued_with};

use crate::expressions::eval_maybe;
use dsl_syntax::Expr;
use eval_meaning::Flow;
use eval_steps::{Then, admit, finish};
use eval_work::{Stop, Work, WorldView};
use site_base::Place;

/// Evaluates an expression, and does with its value what the statement says. Without an expression the value is null.
#[cycle(eval)]
pub(crate) fn run_value(
    view: &WorldView,
    work: &mut Work,
    depth: u32,
    place: Place,
    then: Then,
    expr: Option<&Expr>,
) -> Result<Flow, Stop>
    requires fit { IsFit work.old }
    requires told { IsTold view.now work.old.store }
    ensures gives { Gives (λ f. f) result (state_of work.new) (valued_with (parts view.now depth) place then.entry (maybe_expr_view (option_copied expr.entry)) (state_of work.old)) }
    ensures kept { IfOk result (IsFlowKept work.old work.new) }
{
    admit(work, place, then)?;
    let value = eval_maybe(view, work, depth, expr)?;
    finish(work, place, then, value)
}
