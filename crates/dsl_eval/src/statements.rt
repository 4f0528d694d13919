// Statements.
ghost use Rattle.std.specs.Prelude.{IfOk};
ghost use Rattle.dsl_syntax.specs.SyntaxView.{stmt_view, stmt_kind_view, stmts_view, arms_view};
ghost use Rattle.eval_meaning.specs.Evaluation.{statement_kind_with};
ghost use Rattle.eval_meaning.specs.Flow.{block_with, statement_with, arms_with};
ghost use Rattle.eval_work.specs.Works.{state_of, view_of, Gives};
ghost use Rattle.eval_work.specs.Kept.{IsFit, IsFlowKept, IsTold};
ghost use Rattle.dsl_eval.specs.Nodes.{parts};

use crate::assigning::run_set;
use crate::captures::make_function;
use crate::expressions::eval_at;
use crate::files::{run_import, run_include};
use crate::finishing::run_value;
use crate::loops::{run_for, run_while};
use crate::registering::{run_apply, run_named};
use dsl_syntax::{Arm, Stmt, StmtKind};
use eval_meaning::Flow;
use eval_steps::{Sort, Then, enter, is_passed};
use eval_work::{Stop, Work, WorldView};
use load_work::define;
use site_base::Place;

/// Runs statements, one after another.
#[cycle(eval)]
pub(crate) fn run_block(
    view: &WorldView,
    work: &mut Work,
    depth: u32,
    statements: &[Stmt],
) -> Result<Flow, Stop>
    requires fit { IsFit work.old }
    requires told { IsTold view.now work.old.store }
    ensures gives { Gives (λ f. f) result (state_of work.new) (block_with (parts view.now depth) (stmts_view statements.now) (state_of work.old)) }
    ensures kept { IfOk result (IsFlowKept work.old work.new) }
{
    for statement in statements {
        let flow = run_statement(view, work, depth, statement)?;
        match flow {
            Flow::On => {}
            _ => return Ok(flow),
        }
    }
    Ok(Flow::On)
}

/// Runs a statement. An `assign` or an `ignore` is passed over.
#[cycle(eval)]
fn run_statement(
    view: &WorldView,
    work: &mut Work,
    depth: u32,
    statement: &Stmt,
) -> Result<Flow, Stop>
    requires fit { IsFit work.old }
    requires told { IsTold view.now work.old.store }
    ensures gives { Gives (λ f. f) result (state_of work.new) (statement_with (parts view.now depth) (stmt_view statement.now) (state_of work.old)) }
    ensures kept { IfOk result (IsFlowKept work.old work.new) }
{
    if is_passed(&statement.kind) {
        return Ok(Flow::On);
    }
    let below = enter(work, depth, statement.place)?;
    run_kind(view, work, below, statement.place, &statement.kind)
}

/// Runs a statement whose step is counted.
#[cycle(eval)]
fn run_kind(
    view: &WorldView,
    work: &mut Work,
    depth: u32,
    place: Place,
    kind: &StmtKind,
) -> Result<Flow, Stop>
    requires fit { IsFit work.old }
    requires told { IsTold view.now work.old.store }
    ensures gives { Gives (λ f. f) result (state_of work.new) (statement_kind_with (view_of view.now) (parts view.now depth) place (stmt_kind_view kind.now) (state_of work.old)) }
    ensures kept { IfOk result (IsFlowKept work.old work.new) }
{
    match kind {
        StmtKind::Object {
            kind,
            name,
            uses,
            body,
        } => run_named(
            view,
            work,
            depth,
            place,
            Sort::Object,
            kind,
            name,
            uses,
            body,
        ),
        StmtKind::Template {
            kind,
            name,
            uses,
            body,
        } => run_named(
            view,
            work,
            depth,
            place,
            Sort::Template,
            kind,
            name,
            uses,
            body,
        ),
        StmtKind::Apply {
            kind,
            name,
            to,
            each,
            uses,
            body,
        } => run_apply(view, work, depth, place, kind, name, to, each, uses, body),
        StmtKind::Const { name, expr } => {
            run_value(view, work, depth, place, Then::Constant(name), Some(expr))
        }
        StmtKind::Include { .. } | StmtKind::IncludeLib { .. } | StmtKind::IncludeAll { .. } => {
            run_include(view, work, depth, place)
        }
        StmtKind::Import { expr } => run_import(view, work, depth, place, expr),
        StmtKind::Assign { .. } | StmtKind::Ignore { .. } => Ok(Flow::On),
        StmtKind::Set {
            base,
            steps,
            op,
            expr,
        } => run_set(view, work, depth, place, base, steps, *op, expr),
        StmtKind::Var { name, expr } => {
            run_value(view, work, depth, place, Then::Local(name), expr.as_ref())
        }
        StmtKind::Define { name, func } => {
            let value = make_function(view, work, depth, place, func)?;
            define(work, place, name, value)?;
            Ok(Flow::On)
        }
        StmtKind::If { arms, other } => run_arms(view, work, depth, arms, other),
        StmtKind::While { cond, block } => run_while(view, work, depth, cond, block),
        StmtKind::For { each, block } => run_for(view, work, depth, each, block),
        StmtKind::Return { expr } => {
            run_value(view, work, depth, place, Then::Returned, expr.as_ref())
        }
        StmtKind::Break => Ok(Flow::Broken(place)),
        StmtKind::Continue => Ok(Flow::Continued(place)),
        StmtKind::Throw { expr } => {
            run_value(view, work, depth, place, Then::Thrown, Some(expr))
        }
        StmtKind::Eval { expr } => {
            run_value(view, work, depth, place, Then::Dropped, Some(expr))
        }
    }
}

/// Runs the block of the first condition that holds, else the last one.
#[cycle(eval)]
fn run_arms(
    view: &WorldView,
    work: &mut Work,
    depth: u32,
    arms: &[Arm],
    other: &[Stmt],
) -> Result<Flow, Stop>
    requires fit { IsFit work.old }
    requires told { IsTold view.now work.old.store }
    ensures gives { Gives (λ f. f) result (state_of work.new) (arms_with (parts view.now depth) (arms_view arms.now) (stmts_view other.now) (state_of work.old)) }
    ensures kept { IfOk result (IsFlowKept work.old work.new) }
{
    for arm in arms {
        let value = eval_at(view, work, depth, &arm.cond)?;
        if work.holds(&value) {
            return run_block(view, work, depth, &arm.block);
        }
    }
    run_block(view, work, depth, other)
}
