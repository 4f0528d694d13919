// What is registered, once it is evaluated.
ghost use Rattle.std.specs.Prelude.{IfOk, option_map};
ghost use Rattle.std.specs.Arc.{arc_value};
ghost use Rattle.dsl_syntax.specs.SyntaxView.{block_view, maybe_expr_view};
ghost use Rattle.eval_work.specs.Works.{state_of, view_of, placed_name, Gives};
ghost use Rattle.eval_work.specs.Kept.{IsFit, IsFlowKept, PairsNamed};
ghost use Rattle.eval_steps.specs.Registering.{registered, prefix_of};

use dsl_syntax::{Block, Expr};
use dsl_value::Value;
use eval_meaning::Flow;
use eval_work::{Locals, Stop, Work, WorldView};
use load_work::{add_item, add_template, rule_name};
use site_base::{Place, Text};
use std::sync::Arc;

/// What is registered under a type and a name.
#[derive(Clone, Copy, PartialEq, Eq)]
pub enum Sort {
    Object,
    Template,
}

/// Registers what has a name, once that and what it captures are evaluated, or gives the fault of doing so.
pub fn register(
    view: &WorldView,
    work: &mut Work,
    place: Place,
    sort: Sort,
    kind: &Text,
    name: Text,
    captured: Locals,
    body: &Arc<Block>,
) -> Result<Flow, Stop>
    requires fit { IsFit work.old }
    requires captured { PairsNamed work.old.store captured }
    ensures gives { Gives (λ f. f) result (state_of work.new) (registered (view_of view.now) sort place kind.now name captured (block_view (arc_value body.now)) (state_of work.old)) }
    ensures kept { IfOk result (IsFlowKept work.old work.new) }
{
    match sort {
        Sort::Object => add_item(work, view, place, kind, name, captured, body)?,
        Sort::Template => add_template(work, view, place, kind, name, captured, body)?,
    }
    Ok(Flow::On)
}

/// The name of a rule, by the value of its expression; `None` if it has none. A fault where the value is no name.
pub fn rule_prefix(
    work: &Work,
    name: &Option<Expr>,
    value: Option<Value>,
) -> Result<Option<(Text, Place)>, Stop>
    ensures { Gives (option_map placed_name) result (state_of work.now) (prefix_of (maybe_expr_view name.now) value (state_of work.now)) }
{
    match (name, value) {
        (Some(name), Some(value)) => rule_name(work, name.place, value),
        _ => Ok(None),
    }
}
