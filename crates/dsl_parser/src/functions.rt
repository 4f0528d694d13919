// Functions: their parameters and the names that they capture.
ghost use Rattle.std.specs.Prelude.{◌<◌, length};
ghost use Rattle.dsl_syntax.specs.SyntaxView.{func_view, uses_view};
ghost use Rattle.dsl_rules.specs.Grammar.{made};
ghost use Rattle.dsl_next.specs.Gives.{Gives};
ghost use Rattle.dsl_grammar.specs.Grammar.{OneUse, UseNames, MaybeUse, Func as FuncRule, add_captured};
ghost use Rattle.dsl_grammar.specs.Reading.{read_by};

use crate::blocks::block;
use crate::exprs::expr;
use dsl_lexer::{Sign, Token, Word};
use dsl_next::next::{after_first, at_sign, at_word, ident, sign, word};
use dsl_next::stop::Stop;
use dsl_parts::functions::{func_of, params, with_use};
use dsl_syntax::{Func, Use};
use std::alloc::Global;

/// A function behind its word or name, `params [use] block`.
#[cycle(parse)]
#[tactic(auto, unfolding(dsl_grammar::specs::Grammar::Func))]
pub(crate) fn func<'a>(
    alloc: Global,
    most: usize,
    tokens: &'a [Token],
) -> Result<(Func, &'a [Token]), Stop<'a>>
    requires { length tokens.now < most }
    ensures { Gives func_view result (read_by most FuncRule tokens.now) }
{
    let (names, after) = params(alloc, most, tokens)?;
    let (uses, middle) = captured(alloc, most, after)?;
    let (body, rest) = block(alloc, most - 1, middle)?;
    Ok((func_of(names, uses, body), rest))
}

/// The names that a body captures, if it names any, `[ "use" "(" IDENT [ "=" expr ] { "," IDENT [ "=" expr ] } ")" ]`.
#[cycle(parse)]
#[tactic(auto, unfolding(dsl_grammar::specs::Grammar::MaybeUse, dsl_grammar::specs::Grammar::UseList))]
pub(crate) fn captured<'a>(
    alloc: Global,
    most: usize,
    tokens: &'a [Token],
) -> Result<(Vec<Use>, &'a [Token]), Stop<'a>>
    requires { length tokens.now < most }
    ensures { Gives (λ us. uses_view us.items) result (read_by most MaybeUse tokens.now) }
{
    if !at_word(Word::Use, tokens) {
        return Ok((Vec::new(alloc), tokens));
    }
    let (_, begin) = word(Word::Use, tokens)?;
    let (_, inner) = sign(Sign::OpenParen, begin)?;
    let (uses, after) = use_names(alloc, most, inner)?;
    let (_, rest) = sign(Sign::CloseParen, after)?;
    Ok((uses, rest))
}

/// One or more captured names, with commas between them.
#[cycle(parse)]
#[tactic(auto, unfolding(dsl_grammar::specs::Grammar::UseNames))]
fn use_names<'a>(
    alloc: Global,
    most: usize,
    tokens: &'a [Token],
) -> Result<(Vec<Use>, &'a [Token]), Stop<'a>>
    requires { length tokens.now < most }
    ensures { Gives (λ us. uses_view us.items) result (read_by most UseNames tokens.now) }
{
    let (mut uses, mut rest) = with_captured(alloc, most, Vec::new(alloc), tokens)?;
    while at_sign(Sign::Comma, rest) {
        let (longer, after) = with_captured(alloc, most, uses, after_first(rest))?;
        uses = longer;
        rest = after;
    }
    Ok((uses, rest))
}

/// The captured names with the one that must stand next, and what it stands for if that is said, `IDENT [ "=" expr ]`.
#[cycle(parse)]
#[tactic(auto, unfolding(dsl_grammar::specs::Grammar::OneUse))]
fn with_captured<'a>(
    alloc: Global,
    most: usize,
    uses: Vec<Use>,
    tokens: &'a [Token],
) -> Result<(Vec<Use>, &'a [Token]), Stop<'a>>
    requires { length tokens.now < most }
    ensures { Gives (λ us. uses_view us.items) result (read_by most (made (add_captured (uses_view uses.items)) OneUse) tokens.now) }
{
    let (name, middle) = ident(tokens)?;
    if !at_sign(Sign::Set, middle) {
        return Ok((with_use(uses, name, None)?, middle));
    }
    let (_, inner) = sign(Sign::Set, middle)?;
    let (value, rest) = expr(alloc, most - 1, inner)?;
    Ok((with_use(uses, name, Some(value))?, rest))
}
