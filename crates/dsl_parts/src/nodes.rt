// The nodes of expressions, made of their parts.
ghost use Rattle.std.specs.Prelude.{◌≡◌, IfOk};
ghost use Rattle.dsl_syntax.specs.Syntax.{expression, array, dictionary};
ghost use Rattle.dsl_syntax.specs.SyntaxView.{expr_view, exprs_view, entries_view};
ghost use Rattle.dsl_parts.specs.ExprParts.{operand_view};
ghost use Rattle.dsl_syntax.specs.Lists.{add_expression, add_entry};
ghost use Rattle.dsl_grammar.specs.Grammar.{joined as joined_plain, with_tail, member_tail, index_tail, call_tail};

use dsl_syntax::{BinOp, Expr, ExprKind};
use site_base::{Place, Text};
use std::alloc::{AllocError, AllocFailed, Global};

/// An expression, and where its text begins: a parenthesis around it leaves no node.
#[derive(Drop)]
pub struct Operand {
    pub start: Place,
    pub expr: Expr,
}

/// Two operands with an operator between them.
pub fn joined(
    alloc: Global,
    left: Operand,
    op: BinOp,
    right: Operand,
) -> Result<Operand, AllocError>
    ensures { IfOk result (λ o. operand_view o ≡ joined_plain (operand_view left) op (operand_view right)) }
{
    let start = left.start;
    let kind = ExprKind::Binary(
        op,
        Box::new(alloc, left.expr)?,
        Box::new(alloc, right.expr)?,
    );
    let expr = Expr { place: start, kind };
    Ok(Operand { start, expr })
}

/// A member of an operand.
pub fn with_member(alloc: Global, operand: Operand, name: Text) -> Result<Operand, AllocError>
    ensures { IfOk result (λ o. operand_view o ≡ with_tail (operand_view operand) (member_tail name)) }
{
    let start = operand.start;
    let kind = ExprKind::Member(Box::new(alloc, operand.expr)?, name);
    let expr = Expr { place: start, kind };
    Ok(Operand { start, expr })
}

/// An element of an operand.
pub fn with_index(alloc: Global, operand: Operand, index: Expr) -> Result<Operand, AllocError>
    ensures { IfOk result (λ o. operand_view o ≡ with_tail (operand_view operand) (index_tail (expr_view index))) }
{
    let start = operand.start;
    let kind = ExprKind::Index(Box::new(alloc, operand.expr)?, Box::new(alloc, index)?);
    let expr = Expr { place: start, kind };
    Ok(Operand { start, expr })
}

/// A call of an operand.
#[tactic(auto, using(dsl_syntax::proofs::SyntaxKinds::kind_call))]
pub fn with_call(
    alloc: Global,
    operand: Operand,
    arguments: Vec<Expr>,
) -> Result<Operand, AllocError>
    ensures { IfOk result (λ o. operand_view o ≡ with_tail (operand_view operand) (call_tail (exprs_view arguments.items))) }
{
    let start = operand.start;
    let kind = ExprKind::Call(Box::new(alloc, operand.expr)?, arguments);
    let expr = Expr { place: start, kind };
    Ok(Operand { start, expr })
}

/// An array at its place, which takes no more memory than its elements do.
#[tactic(auto, using(dsl_syntax::proofs::SyntaxKinds::kind_array))]
pub fn array_at(place: Place, mut items: Vec<Expr>) -> Expr
    ensures { expr_view result ≡ expression place (array (exprs_view items.items)) }
{
    items.shrink_to_fit();
    Expr {
        place,
        kind: ExprKind::Array(items),
    }
}

/// A dictionary at its place, which takes no more memory than its entries do.
#[tactic(auto, using(dsl_syntax::proofs::SyntaxKinds::kind_dict))]
pub fn dictionary_at(place: Place, mut entries: Vec<(Text, Expr)>) -> Expr
    ensures { expr_view result ≡ expression place (dictionary (entries_view entries.items)) }
{
    entries.shrink_to_fit();
    Expr {
        place,
        kind: ExprKind::Dict(entries),
    }
}

/// The expressions with one more behind them.
#[tactic(auto, using(dsl_syntax::proofs::SyntaxLists::exprs_more))]
pub fn with_expr(mut list: Vec<Expr>, expr: Expr) -> Result<Vec<Expr>, AllocFailed<Expr>>
    ensures { IfOk result (λ es. exprs_view es.items ≡ add_expression (exprs_view list.items) (expr_view expr)) }
{
    list.push(expr)?;
    Ok(list)
}

/// The entries with one more behind them.
#[tactic(auto, using(dsl_syntax::proofs::SyntaxLists::entries_more))]
pub fn with_entry(
    mut list: Vec<(Text, Expr)>,
    entry: (Text, Expr),
) -> Result<Vec<(Text, Expr)>, AllocFailed<(Text, Expr)>>
    ensures { IfOk result (λ ps. entries_view ps.items ≡ add_entry (entries_view list.items) entry.0 (expr_view entry.1)) }
{
    list.push(entry)?;
    Ok(list)
}
