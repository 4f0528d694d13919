// Which statements are run.
ghost use Rattle.std.specs.Prelude.{◌≡◌, slice_get};
ghost use Rattle.dsl_syntax.specs.SyntaxView.{stmt_kind_view, stmts_view};
ghost use Rattle.eval_meaning.specs.Flow.{is_passed as passed_kind};
ghost use Rattle.eval_work.specs.Works.{view_of};
ghost use Rattle.eval_steps.specs.Frames.{statements_in};

use dsl_syntax::{Stmt, StmtKind};
use eval_work::WorldView;

/// Whether a statement is passed over, as `assign` and `ignore` are.
pub fn is_passed(kind: &StmtKind) -> bool
    ensures { result ≡ passed_kind (stmt_kind_view kind.now) }
{
    matches!(kind, StmtKind::Assign { .. } | StmtKind::Ignore { .. })
}

/// The statements of a file, by its index in the view; none if there is no such file.
pub fn statements_of<'a>(view: &'a WorldView, index: u32) -> &'a [Stmt]
    ensures { stmts_view result.now ≡ statements_in (slice_get (view_of view.now).files index) }
{
    match view.files.get(index as usize) {
        Some(file) => &file.file.statements,
        None => &[],
    }
}
