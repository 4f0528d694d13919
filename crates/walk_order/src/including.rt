// Statements that include files.
ghost use Rattle.std.specs.Prelude.{◌≡◌};
ghost use Rattle.dsl_syntax.specs.SyntaxView.{stmt_kind_view};
ghost use Rattle.walk_order.specs.Orders.{is_inclusion as includes};

use dsl_syntax::{Stmt, StmtKind};

/// Whether a statement includes files, so that the order of a walk has a number for it.
pub fn is_inclusion(statement: &Stmt) -> bool
    ensures { result ≡ includes (stmt_kind_view statement.now.kind) }
{
    matches!(
        statement.kind,
        StmtKind::Include { .. } | StmtKind::IncludeLib { .. } | StmtKind::IncludeAll { .. }
    )
}
