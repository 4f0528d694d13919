// The conditions of a body.
ghost use Rattle.std.specs.Prelude.{◌≡◌, OnOk};
ghost use Rattle.dsl_syntax.specs.Syntax.{no_statements, more_statements};
ghost use Rattle.dsl_syntax.specs.SyntaxView.{block_view, expr_view, stmt_view, stmts_view};
ghost use Rattle.eval_meaning.specs.Evaluation.{evaluated};
ghost use Rattle.eval_meaning.specs.Flow.{truth_with};
ghost use Rattle.eval_meaning.specs.Load.{most_open};
ghost use Rattle.eval_work.specs.Works.{state_of, view_of, Gives};
ghost use Rattle.commit_meaning.specs.Conditions.{no_verdict, judged as judged_by, is_kept as kept_by};
ghost use Rattle.item_start.specs.Ready.{IsReady};
ghost use Rattle.rule_expressions.specs.Conditional.{has_conditions as conditions_in};
ghost use Rattle.rule_expressions.specs.Plain.{plain_verdict};

use crate::prepared::evaluate;
use dsl_syntax::{Block, Expr, Stmt, StmtKind};
use eval_work::{Stop, Work, WorldView};
use load_work::has_assign;

/// Whether some `assign` was true, and whether some `ignore` was.
#[derive(Clone, Copy)]
pub struct Verdict {
    pub assigned: bool,
    pub ignored: bool,
}

/// Whether a rule with this body keeps an element. One without an `assign` keeps each that no `ignore` drops.
pub fn is_kept(body: &Block, verdict: Verdict) -> bool
    ensures { result ≡ kept_by (block_view body.now) (plain_verdict verdict) }
{
    is_kept_by(&body.statements, verdict)
}

fn is_kept_by(body: &[Stmt], verdict: Verdict) -> bool
    ensures { result ≡ kept_by (stmts_view body.now) (plain_verdict verdict) }
{
    (verdict.assigned || !has_assign(body)) && !verdict.ignored
}

/// Whether a body has conditions at all.
pub fn has_conditions(body: &Block) -> bool
    ensures { result ≡ conditions_in (block_view body.now) }
{
    has_conditions_in(&body.statements)
}

fn has_conditions_in(body: &[Stmt]) -> bool
    ensures { result ≡ conditions_in (stmts_view body.now) }
{
    for statement in body {
        match &statement.kind {
            StmtKind::Assign { .. } | StmtKind::Ignore { .. } => return true,
            _ => {}
        }
    }
    false
}

/// Evaluates all conditions of a body, one after another. Other statements are passed over. It ends early by the first fault, or by the
/// first read that isn't decided.
pub fn judge(view: &WorldView, body: &Block, work: &mut Work) -> Result<Verdict, Stop>
    requires { IsReady view.now work.old }
    ensures gives { Gives plain_verdict result (state_of work.new) (judged_by (view_of view.now) (block_view body.now) no_verdict (state_of work.old)) }
    ensures ready { OnOk result (IsReady view.now work.new) }
{
    judge_all(view, &body.statements, work)
}

#[tactic(auto, using(crate::proofs::Judged::judged_more))]
fn judge_all(view: &WorldView, body: &[Stmt], work: &mut Work) -> Result<Verdict, Stop>
    requires { IsReady view.now work.old }
    ensures gives { Gives plain_verdict result (state_of work.new) (judged_by (view_of view.now) (stmts_view body.now) no_verdict (state_of work.old)) }
    ensures ready { OnOk result (IsReady view.now work.new) }
{
    let mut verdict = Verdict {
        assigned: false,
        ignored: false,
    };
    for statement in body {
        verdict = judge_one(view, statement, verdict, work)?;
    }
    Ok(verdict)
}

/// A verdict, once one more statement was looked at.
fn judge_one(
    view: &WorldView,
    statement: &Stmt,
    verdict: Verdict,
    work: &mut Work,
) -> Result<Verdict, Stop>
    requires { IsReady view.now work.old }
    ensures gives { Gives plain_verdict result (state_of work.new) (judged_by (view_of view.now) (more_statements (stmt_view statement.now) no_statements) (plain_verdict verdict) (state_of work.old)) }
    ensures ready { OnOk result (IsReady view.now work.new) }
{
    match &statement.kind {
        StmtKind::Assign { expr } => {
            let holds = holds(view, expr, work)?;
            Ok(Verdict {
                assigned: verdict.assigned || holds,
                ignored: verdict.ignored,
            })
        }
        StmtKind::Ignore { expr } => {
            let holds = holds(view, expr, work)?;
            Ok(Verdict {
                assigned: verdict.assigned,
                ignored: verdict.ignored || holds,
            })
        }
        _ => Ok(verdict),
    }
}

/// Whether the value of an expression counts as true.
fn holds(view: &WorldView, expr: &Expr, work: &mut Work) -> Result<bool, Stop>
    requires { IsReady view.now work.old }
    ensures gives { Gives (λ b. b) result (state_of work.new) (truth_with (evaluated (view_of view.now) most_open) (expr_view expr.now) (state_of work.old)) }
    ensures ready { OnOk result (IsReady view.now work.new) }
{
    let value = evaluate(view, expr, work)?;
    Ok(work.holds(&value))
}
