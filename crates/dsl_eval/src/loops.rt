// Loops.
ghost use Rattle.std.specs.Prelude.{IfOk};
ghost use Rattle.dsl_syntax.specs.SyntaxView.{expr_view, stmts_view, each_view};
ghost use Rattle.eval_meaning.specs.Flow.{turn_with, while_with, for_with};
ghost use Rattle.eval_work.specs.Works.{state_of, Gives};
ghost use Rattle.eval_work.specs.Kept.{IsFit, IsFlowKept, IsTurnKept, IsTold};
ghost use Rattle.dsl_eval.specs.Nodes.{parts};
ghost use Rattle.eval_steps.specs.Loops.{for_turns};
ghost use Rattle.eval_steps.specs.Named.{TurnsNamed};

use crate::expressions::eval_at;
use crate::statements::run_block;
use dsl_syntax::{Each, Expr, Stmt};
use eval_meaning::Flow;
use eval_steps::{Turn, begin_turn, loop_end, turns_of};
use eval_work::{Stop, Work, WorldView, fault};
use site_base::{DiagKind, Text};

/// Runs a `while`. The condition of each turn takes a step, so there are no more turns than steps.
#[cycle(eval)]
pub(crate) fn run_while(
    view: &WorldView,
    work: &mut Work,
    depth: u32,
    cond: &Expr,
    block: &[Stmt],
) -> Result<Flow, Stop>
    requires fit { IsFit work.old }
    requires told { IsTold view.now work.old.store }
    ensures gives { Gives (λ f. f) result (state_of work.new) (while_with (parts view.now depth) (expr_view cond.now) (stmts_view block.now) (state_of work.old)) }
    ensures kept { IfOk result (IsFlowKept work.old work.new) }
{
    let most = work.steps;
    for _ in 0..most {
        let turn = run_turn(view, work, depth, cond, block)?;
        match turn {
            Some(flow) => return Ok(flow),
            None => {}
        }
    }
    Err(fault(work.alloc, cond.place, DiagKind::StepLimit))
}

/// One turn of a `while`: how the loop ends, if it does.
#[cycle(eval)]
fn run_turn(
    view: &WorldView,
    work: &mut Work,
    depth: u32,
    cond: &Expr,
    block: &[Stmt],
) -> Result<Option<Flow>, Stop>
    requires fit { IsFit work.old }
    requires told { IsTold view.now work.old.store }
    ensures gives { Gives (λ o. o) result (state_of work.new) (turn_with (parts view.now depth) (expr_view cond.now) (stmts_view block.now) (state_of work.old)) }
    ensures kept { IfOk result (IsTurnKept work.old work.new) }
{
    let value = eval_at(view, work, depth, cond)?;
    if !work.holds(&value) {
        return Ok(Some(Flow::On));
    }
    let flow = run_block(view, work, depth, block)?;
    Ok(loop_end(flow))
}

/// Runs a `for`. What stands there when the loop begins is gone over.
#[cycle(eval)]
pub(crate) fn run_for(
    view: &WorldView,
    work: &mut Work,
    depth: u32,
    each: &Each,
    block: &[Stmt],
) -> Result<Flow, Stop>
    requires fit { IsFit work.old }
    requires told { IsTold view.now work.old.store }
    ensures gives { Gives (λ f. f) result (state_of work.new) (for_with (parts view.now depth) (each_view each.now) (stmts_view block.now) (state_of work.old)) }
    ensures kept { IfOk result (IsFlowKept work.old work.new) }
{
    let value = eval_at(view, work, depth, &each.expr)?;
    let turns = turns_of(work, each.expr.place, &each.value, &value)?;
    run_turns(view, work, depth, &each.key, &each.value, block, turns)
}

/// Turns of a `for`, one after another.
#[cycle(eval)]
fn run_turns(
    view: &WorldView,
    work: &mut Work,
    depth: u32,
    key: &Text,
    value: &Option<Text>,
    block: &[Stmt],
    turns: Vec<Turn>,
) -> Result<Flow, Stop>
    requires fit { IsFit work.old }
    requires told { IsTold view.now work.old.store }
    requires turns { TurnsNamed work.old.store turns.items }
    ensures gives { Gives (λ f. f) result (state_of work.new) (for_turns (parts view.now depth) key.now value.now (stmts_view block.now) turns.items (state_of work.old)) }
    ensures kept { IfOk result (IsFlowKept work.old work.new) }
{
    for turn in turns {
        begin_turn(work, key, value, turn)?;
        let flow = run_block(view, work, depth, block)?;
        match loop_end(flow) {
            Some(end) => return Ok(end),
            None => {}
        }
    }
    Ok(Flow::On)
}
