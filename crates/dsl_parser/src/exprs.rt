// Expressions, and the levels of operators in them.
ghost use Rattle.std.specs.Prelude.{◌<◌, ◌≤◌, length};
ghost use Rattle.dsl_syntax.specs.SyntaxView.{expr_view, stmts_view};
ghost use Rattle.dsl_parts.specs.ExprParts.{operand_view};
ghost use Rattle.dsl_next.specs.Gives.{Gives};
ghost use Rattle.dsl_grammar.specs.Grammar.{Lambda, LambdaBody, Level, Unary};
ghost use Rattle.dsl_grammar.specs.Reading.{reads, read_by};
ghost use Rattle.dsl_grammar.specs.Terms.{expr as expr_name};

use crate::blocks::block;
use crate::tails::postfix;
use dsl_lexer::{Sign, Token};
use dsl_next::begins::begins_lambda;
use dsl_next::next::{at_sign, sign};
use dsl_next::stop::Stop;
use dsl_parts::functions::{func_of, function_at, params, return_of};
use dsl_parts::levels::{Climb, LEVELS, climbed};
use dsl_parts::nodes::{Operand, joined};
use dsl_parts::operators::{at_prefix, operator};
use dsl_parts::prefixes::{applied, prefixes};
use dsl_syntax::{Expr, Stmt};
use std::alloc::Global;

/// An expression: a function with `=>`, or operands between operators. There is none at the end of the tokens.
#[cycle(parse)]
pub(crate) fn expr<'a>(
    alloc: Global,
    most: usize,
    tokens: &'a [Token],
) -> Result<(Expr, &'a [Token]), Stop<'a>>
    requires { length tokens.now ≤ most }
    ensures { Gives expr_view result (reads most expr_name tokens.now) }
{
    if tokens.is_empty() {
        return Err(Stop::Fault(tokens));
    }
    if begins_lambda(tokens) {
        return lambda(alloc, most, tokens);
    }
    let (operand, rest) = operation(alloc, most, LEVELS, tokens)?;
    Ok((operand.expr, rest))
}

/// A function with `=>`, whose body is a block or an expression that it returns: `params "=>" ( block | expr )`.
#[cycle(parse)]
#[tactic(auto, unfolding(dsl_grammar::specs::Grammar::Lambda, dsl_grammar::specs::Grammar::LambdaFunc))]
fn lambda<'a>(
    alloc: Global,
    most: usize,
    tokens: &'a [Token],
) -> Result<(Expr, &'a [Token]), Stop<'a>>
    requires { length tokens.now ≤ most }
    ensures { Gives expr_view result (read_by most Lambda tokens.now) }
{
    let [first, ..] = tokens else {
        return Err(Stop::Fault(tokens));
    };
    let place = first.place;
    let (names, middle) = params(alloc, most, tokens)?;
    let (_, inner) = sign(Sign::Arrow, middle)?;
    let (body, rest) = lambda_body(alloc, most, inner)?;
    let func = func_of(names, Vec::new(alloc), body);
    Ok((function_at(alloc, place, func)?, rest))
}

/// The body of a function with `=>`, `block | expr`.
#[cycle(parse)]
#[tactic(auto, unfolding(dsl_grammar::specs::Grammar::LambdaBody, dsl_grammar::specs::Grammar::Returned))]
fn lambda_body<'a>(
    alloc: Global,
    most: usize,
    tokens: &'a [Token],
) -> Result<(Vec<Stmt>, &'a [Token]), Stop<'a>>
    requires { length tokens.now < most }
    ensures { Gives (λ b. stmts_view b.items) result (read_by most LambdaBody tokens.now) }
{
    if at_sign(Sign::OpenBrace, tokens) {
        let (body, rest) = block(alloc, most - 1, tokens)?;
        return Ok((body, rest));
    }
    let [first, ..] = tokens else {
        return Err(Stop::Fault(tokens));
    };
    let place = first.place;
    let (value, rest) = expr(alloc, most - 1, tokens)?;
    Ok((return_of(alloc, place, value)?, rest))
}

/// Operands between operators of the levels below `level`, of which each binds tighter than the next. One loop reads all levels:
/// behind an operator stands what binds tighter than it, and then an operator of its level or of one above it.
#[cycle(parse)]
fn operation<'a>(
    alloc: Global,
    most: usize,
    level: usize,
    tokens: &'a [Token],
) -> Result<(Operand, &'a [Token]), Stop<'a>>
    requires some { 0 < most }
    requires bound { length tokens.now ≤ most }
    requires within { level ≤ 11 }
    ensures { Gives operand_view result (read_by most (Level level) tokens.now) }
{
    let (mut left, mut rest) = unary(alloc, most, tokens)?;
    let mut climb = Climb {
        level: 0,
        turns: most,
    };
    while let Some(next) = climbed(most, level, climb, rest) {
        let (op, middle) = operator(most, next.level, rest)?;
        let (right, after) = operation(alloc, most, next.level, middle)?;
        let longer = joined(alloc, left, op, right)?;
        left = longer;
        rest = after;
        climb = next;
    }
    Ok((left, rest))
}

/// An operand with any number of operators before it, and where it begins.
#[cycle(parse)]
#[tactic(auto, unfolding(dsl_grammar::specs::Grammar::Unary, dsl_grammar::specs::Grammar::Prefixed, dsl_grammar::specs::Grammar::Prefixes))]
fn unary<'a>(
    alloc: Global,
    most: usize,
    tokens: &'a [Token],
) -> Result<(Operand, &'a [Token]), Stop<'a>>
    requires { length tokens.now ≤ most }
    ensures { Gives operand_view result (read_by most Unary tokens.now) }
{
    let [first, ..] = tokens else {
        return Err(Stop::Fault(tokens));
    };
    let start = first.place;
    if at_prefix(tokens) {
        let (signs, middle) = prefixes(alloc, most, tokens)?;
        let (operand, rest) = postfix(alloc, most, middle)?;
        let expr = applied(alloc, signs, operand.expr)?;
        return Ok((Operand { start, expr }, rest));
    }
    let (operand, rest) = postfix(alloc, most, tokens)?;
    let expr = operand.expr;
    Ok((Operand { start, expr }, rest))
}
