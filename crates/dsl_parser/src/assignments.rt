// Assignments, and expressions as statements.
ghost use Rattle.std.specs.Prelude.{◌<◌, length};
ghost use Rattle.dsl_syntax.specs.SyntaxView.{stmt_kind_view};
ghost use Rattle.dsl_next.specs.Gives.{Gives};
ghost use Rattle.dsl_grammar.specs.Grammar.{SetOrEval};
ghost use Rattle.dsl_grammar.specs.Reading.{read_by};

use crate::exprs::expr;
use dsl_lexer::Token;
use dsl_next::next::newlines;
use dsl_next::stop::Stop;
use dsl_statements::assignments::{Setting, set_left, set_op, sets};
use dsl_syntax::StmtKind;
use std::alloc::Global;

/// An assignment or an expression, `target setop nl expr | expr`.
#[cycle(parse)]
#[tactic(auto, unfolding(dsl_grammar::specs::Grammar::SetOrEval))]
pub(crate) fn set_or_eval<'a>(
    alloc: Global,
    most: usize,
    tokens: &'a [Token],
) -> Result<(StmtKind, &'a [Token]), Stop<'a>>
    requires { length tokens.now < most }
    ensures { Gives stmt_kind_view result (read_by most SetOrEval tokens.now) }
{
    if tokens.is_empty() {
        return Err(Stop::Fault(tokens));
    }
    let (left, middle) = expr(alloc, most - 1, tokens)?;
    if !sets(&left, tokens, middle) {
        return Ok((StmtKind::Eval { expr: left }, middle));
    }
    let (op, inner) = set_op(middle)?;
    let (expr, rest) = expr(alloc, most - 1, newlines(most, inner))?;
    Ok((set_left(alloc, left, Setting { op, expr })?, rest))
}
