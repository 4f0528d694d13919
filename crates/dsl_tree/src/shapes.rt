// What decides where parentheses stand.
ghost use Rattle.std.specs.Prelude.{◌≡◌};
ghost use Rattle.dsl_syntax.specs.SyntaxView.{expr_view, expr_kind_view};
ghost use Rattle.dsl_tree.specs.Spelling.{is_compound, is_dictionary, begins_with_brace};

use dsl_syntax::{Expr, ExprKind};

/// Whether the expression is no primary, and so stands in parentheses as an operand.
pub(crate) fn is_compound(expr: &Expr) -> bool
    ensures { result ≡ is_compound (expr_kind_view expr.now.kind) }
{
    matches!(
        expr.kind,
        ExprKind::Member(..)
            | ExprKind::Index(..)
            | ExprKind::Call(..)
            | ExprKind::Unary(..)
            | ExprKind::Binary(..)
    )
}

fn is_dictionary(expr: &Expr) -> bool
    ensures { result ≡ is_dictionary (expr_view expr.now) }
{
    matches!(expr.kind, ExprKind::Dict(_))
}

/// Whether the spelling of the expression begins with a brace.
pub(crate) fn begins_with_brace(expr: &Expr) -> bool
    ensures { result ≡ begins_with_brace (expr_view expr.now) }
{
    match &expr.kind {
        ExprKind::Dict(_) => true,
        ExprKind::Member(base, _) => is_dictionary(base),
        ExprKind::Index(base, _) => is_dictionary(base),
        ExprKind::Call(called, _) => is_dictionary(called),
        ExprKind::Binary(_, left, _) => is_dictionary(left),
        _ => false,
    }
}
