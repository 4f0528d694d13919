// The value of an expression, and of a body; files.
ghost use Rattle.std.specs.Prelude.{◌≡◌, IfOk};
ghost use Rattle.dsl_syntax.specs.SyntaxView.{expr_view, stmts_view};
ghost use Rattle.eval_meaning.specs.Evaluation.{evaluated, value_of, body_of};
ghost use Rattle.eval_meaning.specs.Files.{file_with};
ghost use Rattle.eval_meaning.specs.Registration.{loading};
ghost use Rattle.eval_work.specs.Works.{state_of, view_of, Gives};
ghost use Rattle.eval_work.specs.Kept.{IsFit, IsKept, IsTold};

use crate::expressions::eval_at;
use crate::files::run_file;
use crate::statements::run_block;
use dsl_syntax::{Expr, Stmt};
use dsl_value::Value;
use eval_work::{Stop, Work, WorldView};

/// The value of an expression over a view, where at most so many nodes may be open as the work's depth says. A fault, the read that
/// the view doesn't decide, or want of memory ends it; the work is spent then.
pub fn eval_expr(view: &WorldView, work: &mut Work, expr: &Expr) -> Result<Value, Stop>
    requires fit { IsFit work.old }
    requires told { IsTold view.now work.old.store }
    ensures gives { Gives (λ v. v) result (state_of work.new) (value_of (view_of view.now) work.old.depth (expr_view expr.now) (state_of work.old)) }
    ensures kept { IfOk result (IsKept work.old work.new) }
    ensures depth { work.new.depth ≡ work.old.depth }
{
    let depth = work.depth;
    let outcome = eval_at(view, work, depth, expr);
    work.depth = depth;
    outcome
}

/// What a body returns over a view, and null if it doesn't return. It ends early as `eval_expr` does.
pub fn eval_body(view: &WorldView, work: &mut Work, body: &[Stmt]) -> Result<Value, Stop>
    requires fit { IsFit work.old }
    requires told { IsTold view.now work.old.store }
    ensures gives { Gives (λ v. v) result (state_of work.new) (body_of (view_of view.now) work.old.depth (stmts_view body.now) (state_of work.old)) }
    ensures kept { IfOk result (IsKept work.old work.new) }
    ensures depth { work.new.depth ≡ work.old.depth }
{
    let depth = work.depth;
    let outcome = run_block(view, work, depth, body);
    work.depth = depth;
    work.ended(outcome?)
}

/// Runs the first file of what is left of the order of a load's walk, and all that it includes. Gives what the file returns, and null
/// where it doesn't return. It ends early as `eval_expr` does.
pub fn run_order(view: &WorldView, work: &mut Work) -> Result<Value, Stop>
    requires fit { IsFit work.old }
    requires told { IsTold view.now work.old.store }
    ensures gives { Gives (λ v. v) result (state_of work.new) (file_with (view_of view.now) (evaluated (view_of view.now) work.old.depth) (loading (state_of work.old)).order (state_of work.old)) }
    ensures kept { IfOk result (IsKept work.old work.new) }
    ensures depth { work.new.depth ≡ work.old.depth }
{
    let depth = work.depth;
    let outcome = run_file(view, work, depth);
    work.depth = depth;
    outcome
}
