// What registers objects, templates and rules.
ghost use Rattle.std.specs.Prelude.{IfOk};
ghost use Rattle.std.specs.Arc.{arc_value};
ghost use Rattle.dsl_syntax.specs.SyntaxView.{expr_view, uses_view, block_view, maybe_expr_view, maybe_each_view};
ghost use Rattle.eval_meaning.specs.Registration.{apply_rule_with};
ghost use Rattle.eval_work.specs.Works.{state_of, view_of, Gives};
ghost use Rattle.eval_work.specs.Kept.{IsFit, IsFlowKept, IsTold};
ghost use Rattle.dsl_eval.specs.Nodes.{parts};
ghost use Rattle.eval_steps.specs.Registering.{named_with};

use crate::captures::eval_captures;
use crate::expressions::{eval_at, eval_maybe};
use dsl_syntax::{Block, Each, Expr, Use};
use eval_meaning::Flow;
use eval_steps::{Sort, register, rule_prefix};
use eval_work::{Stop, Work, WorldView};
use load_work::{add_rule, at_load, object_name};
use site_base::{Place, Text};
use std::sync::Arc;

/// Registers an object or a template: the name is evaluated, then the `use` list, and then the rest is looked at.
#[cycle(eval)]
pub(crate) fn run_named(
    view: &WorldView,
    work: &mut Work,
    depth: u32,
    place: Place,
    sort: Sort,
    kind: &Text,
    name: &Expr,
    uses: &[Use],
    body: &Arc<Block>,
) -> Result<Flow, Stop>
    requires fit { IsFit work.old }
    requires told { IsTold view.now work.old.store }
    ensures gives { Gives (λ f. f) result (state_of work.new) (named_with (view_of view.now) (parts view.now depth) sort place kind.now (expr_view name.now) (uses_view uses.now) (block_view (arc_value body.now)) (state_of work.old)) }
    ensures kept { IfOk result (IsFlowKept work.old work.new) }
{
    at_load(work, place)?;
    let value = eval_at(view, work, depth, name)?;
    let name = object_name(work, name.place, value)?;
    let captured = eval_captures(view, work, depth, place, uses)?;
    register(view, work, place, sort, kind, name, captured, body)
}

/// Registers a rule: its name is evaluated, then the `use` list, and then the rest is looked at.
#[cycle(eval)]
pub(crate) fn run_apply(
    view: &WorldView,
    work: &mut Work,
    depth: u32,
    place: Place,
    kind: &Text,
    name: &Option<Expr>,
    to: &Option<Text>,
    each: &Option<Arc<Each>>,
    uses: &[Use],
    body: &Arc<Block>,
) -> Result<Flow, Stop>
    requires fit { IsFit work.old }
    requires told { IsTold view.now work.old.store }
    ensures gives { Gives (λ f. f) result (state_of work.new) (apply_rule_with (parts view.now depth) place kind.now (maybe_expr_view name.now) to.now (maybe_each_view each.now) (uses_view uses.now) (block_view (arc_value body.now)) (state_of work.old)) }
    ensures kept { IfOk result (IsFlowKept work.old work.new) }
{
    at_load(work, place)?;
    let value = eval_maybe(view, work, depth, name.as_ref())?;
    let prefix = rule_prefix(work, name, value)?;
    let captured = eval_captures(view, work, depth, place, uses)?;
    add_rule(work, place, kind, prefix, to, each, captured, body)?;
    Ok(Flow::On)
}
