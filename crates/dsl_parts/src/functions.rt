// Functions: their parameters, the names that they capture, and their definitions.
ghost use Rattle.std.specs.Prelude.{◌≡◌, ◌≤◌, IfOk, [], length};
ghost use Rattle.dsl_syntax.specs.Syntax.{define, expression, function, function_value, statement, return, some_expression, more_statements, no_statements};
ghost use Rattle.dsl_syntax.specs.SyntaxView.{expr_view, func_view, maybe_expr_view, stmt_kind_view, stmts_view, uses_view};
ghost use Rattle.dsl_syntax.specs.Lists.{add_use};
ghost use Rattle.dsl_next.specs.Gives.{Gives};
ghost use Rattle.dsl_grammar.specs.Grammar.{Names, Params};
ghost use Rattle.dsl_grammar.specs.Reading.{read_by};
ghost use Rattle.dsl_grammar.specs.Terms.{maybe};

use dsl_lexer::{Sign, Token};
use dsl_next::next::{after_first, at_ident, at_sign, ident, sign};
use dsl_next::stop::Stop;
use dsl_syntax::{Expr, ExprKind, Func, Stmt, StmtKind, Use};
use site_base::{OutOfMemory, Place, Text, Texts};
use std::alloc::{AllocError, AllocFailed, Global};
use std::sync::Arc;

/// The statement that defines a function.
pub fn define_of(alloc: Global, name: Text, func: Func) -> Result<StmtKind, OutOfMemory>
    ensures { IfOk result (λ k. stmt_kind_view k ≡ define name (func_view func)) }
{
    let func = Arc::new(alloc, func)?;
    Ok(StmtKind::Define { name, func })
}

/// The parameters of a function, "(" [ IDENT { "," IDENT } ] ")".
#[tactic(auto, unfolding(dsl_grammar::specs::Grammar::Params, dsl_grammar::specs::Grammar::Names))]
pub fn params<'a>(
    alloc: Global,
    most: usize,
    tokens: &'a [Token],
) -> Result<(Texts, &'a [Token]), Stop<'a>>
    requires { length tokens.now ≤ most }
    ensures { Gives (λ ps. ps) result (read_by most Params tokens.now) }
{
    let (_, inner) = sign(Sign::OpenParen, tokens)?;
    let (names, after) = names(alloc, most, inner)?;
    let (_, rest) = sign(Sign::CloseParen, after)?;
    Ok((names, rest))
}

/// Any number of names, with commas between them.
#[tactic(auto, unfolding(dsl_grammar::specs::Grammar::Names))]
fn names<'a>(
    alloc: Global,
    most: usize,
    tokens: &'a [Token],
) -> Result<(Texts, &'a [Token]), Stop<'a>>
    requires { length tokens.now ≤ most }
    ensures { Gives (λ ps. ps) result (read_by most (maybe (λ ns. ns) [] Names) tokens.now) }
{
    let mut list = Texts::new(alloc);
    if !at_ident(tokens) {
        return Ok((list, tokens));
    }
    let (first, mut rest) = ident(tokens)?;
    list.push(first)?;
    for _ in 0..most {
        if !at_sign(Sign::Comma, rest) {
            break;
        }
        let (next, after) = ident(after_first(rest))?;
        list.push(next)?;
        rest = after;
    }
    Ok((list, rest))
}

/// A function at its place.
pub fn function_at(alloc: Global, place: Place, func: Func) -> Result<Expr, AllocError>
    ensures { IfOk result (λ e. expr_view e ≡ expression place (function_value (func_view func))) }
{
    let kind = ExprKind::Function(Arc::new(alloc, func)?);
    Ok(Expr { place, kind })
}

/// A function of its parts.
#[tactic(auto, using(dsl_syntax::proofs::SyntaxRows::made_func))]
pub fn func_of(params: Texts, uses: Vec<Use>, block: Vec<Stmt>) -> Func
    ensures { func_view result ≡ function params (uses_view uses.items) (stmts_view block.items) }
{
    Func {
        params,
        uses,
        block,
    }
}

/// The captured names with one more behind them.
#[tactic(auto, using(dsl_syntax::proofs::SyntaxLists::uses_more))]
pub fn with_use(
    mut list: Vec<Use>,
    name: Text,
    expr: Option<Expr>,
) -> Result<Vec<Use>, AllocFailed<Use>>
    ensures { IfOk result (λ us. uses_view us.items ≡ add_use (uses_view list.items) name (maybe_expr_view expr)) }
{
    list.push(Use { name, expr })?;
    Ok(list)
}

/// The body that returns an expression.
pub fn return_of(alloc: Global, place: Place, value: Expr) -> Result<Vec<Stmt>, AllocFailed<Stmt>>
    ensures { IfOk result
        (λ b. stmts_view b.items ≡ more_statements (statement place (return (some_expression (expr_view value)))) no_statements) }
{
    let kind = StmtKind::Return { expr: Some(value) };
    let mut body = Vec::new(alloc);
    body.push(Stmt { place, kind })?;
    Ok(body)
}
