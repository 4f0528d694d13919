// Primary expressions, and the members, elements and calls behind them.
ghost use Rattle.std.specs.Prelude.{◌<◌, ◌≤◌, length};
ghost use Rattle.dsl_syntax.specs.SyntaxView.{expr_view, exprs_view};
ghost use Rattle.dsl_rules.specs.Grammar.{made};
ghost use Rattle.dsl_parts.specs.ExprParts.{operand_view};
ghost use Rattle.dsl_next.specs.Gives.{Gives};
ghost use Rattle.dsl_grammar.specs.Grammar.{Prim, Postfix, OneTail, Arguments, with_tail};
ghost use Rattle.dsl_grammar.specs.Reading.{read_by};

use crate::collections::{array, dictionary};
use crate::exprs::expr;
use crate::functions::func;
use dsl_lexer::{Sign, Token, Word};
use dsl_next::begins::{at_expr, at_tail};
use dsl_next::next::{after_first, at_sign, ident, sign, word};
use dsl_next::stop::Stop;
use dsl_parts::functions::function_at;
use dsl_parts::literals::{at_literal, literal};
use dsl_parts::nodes::{Operand, with_call, with_expr, with_index, with_member};
use dsl_syntax::Expr;
use std::alloc::Global;

/// A primary expression with what stands behind it, and where it begins:
/// `prim { "." IDENT | "[" expr "]" | "(" [ expr { "," expr } ] ")" }`.
#[cycle(parse)]
#[tactic(auto, unfolding(dsl_grammar::specs::Grammar::Postfix, dsl_grammar::specs::Grammar::BegunPrim))]
pub(crate) fn postfix<'a>(
    alloc: Global,
    most: usize,
    tokens: &'a [Token],
) -> Result<(Operand, &'a [Token]), Stop<'a>>
    requires { length tokens.now ≤ most }
    ensures { Gives operand_view result (read_by most Postfix tokens.now) }
{
    let [first, ..] = tokens else {
        return Err(Stop::Fault(tokens));
    };
    let start = first.place;
    let (expr, mut rest) = primary(alloc, most, tokens)?;
    let mut operand = Operand { start, expr };
    while at_tail(rest) {
        let (longer, after) = with_next_tail(alloc, most, operand, rest)?;
        operand = longer;
        rest = after;
    }
    Ok((operand, rest))
}

/// A literal, an identifier, `this`, `globals`, a parenthesis, an array, a dictionary or a function.
#[cycle(parse)]
#[tactic(auto, unfolding(dsl_grammar::specs::Grammar::Prim, dsl_grammar::specs::Grammar::Literal, dsl_grammar::specs::Grammar::Paren, dsl_grammar::specs::Grammar::Array, dsl_grammar::specs::Grammar::BracketedElements, dsl_grammar::specs::Grammar::Dict, dsl_grammar::specs::Grammar::BracedPairs, dsl_grammar::specs::Grammar::FunctionLiteral, dsl_grammar::specs::Grammar::FunctionFunc))]
fn primary<'a>(
    alloc: Global,
    most: usize,
    tokens: &'a [Token],
) -> Result<(Expr, &'a [Token]), Stop<'a>>
    requires { length tokens.now ≤ most }
    ensures { Gives expr_view result (read_by most Prim tokens.now) }
{
    if at_literal(tokens) {
        literal(tokens)
    } else if at_sign(Sign::OpenParen, tokens) {
        let (_, inner) = sign(Sign::OpenParen, tokens)?;
        let (inside, after) = expr(alloc, most - 1, inner)?;
        let (_, rest) = sign(Sign::CloseParen, after)?;
        Ok((inside, rest))
    } else if at_sign(Sign::OpenBracket, tokens) {
        array(alloc, most, tokens)
    } else if at_sign(Sign::OpenBrace, tokens) {
        dictionary(alloc, most, tokens)
    } else {
        let [first, ..] = tokens else {
            return Err(Stop::Fault(tokens));
        };
        let place = first.place;
        let (_, inner) = word(Word::Function, tokens)?;
        let (func, rest) = func(alloc, most, inner)?;
        Ok((function_at(alloc, place, func)?, rest))
    }
}

/// The operand with the member, the index or the arguments that must stand next.
#[cycle(parse)]
#[tactic(auto, unfolding(dsl_grammar::specs::Grammar::OneTail))]
fn with_next_tail<'a>(
    alloc: Global,
    most: usize,
    operand: Operand,
    tokens: &'a [Token],
) -> Result<(Operand, &'a [Token]), Stop<'a>>
    requires { length tokens.now ≤ most }
    ensures { Gives operand_view result (read_by most (made (with_tail (operand_view operand)) OneTail) tokens.now) }
{
    if at_sign(Sign::Dot, tokens) {
        let (_, inner) = sign(Sign::Dot, tokens)?;
        let (name, rest) = ident(inner)?;
        Ok((with_member(alloc, operand, name)?, rest))
    } else if at_sign(Sign::OpenBracket, tokens) {
        let (_, inner) = sign(Sign::OpenBracket, tokens)?;
        let (index, after) = expr(alloc, most - 1, inner)?;
        let (_, rest) = sign(Sign::CloseBracket, after)?;
        Ok((with_index(alloc, operand, index)?, rest))
    } else {
        let (_, inner) = sign(Sign::OpenParen, tokens)?;
        let (list, after) = arguments(alloc, most, inner)?;
        let (_, rest) = sign(Sign::CloseParen, after)?;
        Ok((with_call(alloc, operand, list)?, rest))
    }
}

/// Any number of expressions, with commas between them, `[ expr { "," expr } ]`.
#[cycle(parse)]
#[tactic(auto, unfolding(dsl_grammar::specs::Grammar::Arguments, dsl_grammar::specs::Grammar::Listed))]
fn arguments<'a>(
    alloc: Global,
    most: usize,
    tokens: &'a [Token],
) -> Result<(Vec<Expr>, &'a [Token]), Stop<'a>>
    requires { length tokens.now < most }
    ensures { Gives (λ es. exprs_view es.items) result (read_by most Arguments tokens.now) }
{
    if !at_expr(tokens) {
        return Ok((Vec::new(alloc), tokens));
    }
    let (first, mut rest) = expr(alloc, most - 1, tokens)?;
    let mut list = with_expr(Vec::new(alloc), first)?;
    while at_sign(Sign::Comma, rest) {
        let (next, after) = expr(alloc, most - 1, after_first(rest))?;
        let longer = with_expr(list, next)?;
        list = longer;
        rest = after;
    }
    Ok((list, rest))
}
