// Arrays and dictionaries.
ghost use Rattle.std.specs.Prelude.{◌<◌, ◌≤◌, true, length};
ghost use Rattle.dsl_syntax.specs.SyntaxView.{expr_view, maybe_expr_view, entries_view};
ghost use Rattle.dsl_rules.specs.Grammar.{made};
ghost use Rattle.dsl_parts.specs.ExprParts.{slots_view};
ghost use Rattle.dsl_next.specs.Gives.{Gives};
ghost use Rattle.dsl_grammar.specs.Grammar.{Slot, Elements, Array, Dict, Pairs, MaybePair, add_pair};
ghost use Rattle.dsl_grammar.specs.Reading.{read_by};
ghost use Rattle.dsl_grammar.specs.Terms.{add_turn};

use crate::exprs::expr;
use dsl_lexer::{Sign, Token};
use dsl_next::begins::{at_body_separator, at_expr, at_key};
use dsl_next::next::{after_first, key, newlines, sign};
use dsl_next::stop::Stop;
use dsl_parts::nodes::{array_at, dictionary_at, with_entry};
use dsl_parts::slots::{Slots, at_slot, with_slot};
use dsl_syntax::Expr;
use site_base::Text;
use std::alloc::Global;

/// An array, `"[" [ expr { "," expr } [","] ] "]"`.
#[cycle(parse)]
#[tactic(auto, unfolding(dsl_grammar::specs::Grammar::Array, dsl_grammar::specs::Grammar::BracketedElements))]
pub(crate) fn array<'a>(
    alloc: Global,
    most: usize,
    tokens: &'a [Token],
) -> Result<(Expr, &'a [Token]), Stop<'a>>
    requires { length tokens.now ≤ most }
    ensures { Gives expr_view result (read_by most Array tokens.now) }
{
    let [first, ..] = tokens else {
        return Err(Stop::Fault(tokens));
    };
    let place = first.place;
    let (_, inner) = sign(Sign::OpenBracket, tokens)?;
    let (slots, after) = elements(alloc, most, inner)?;
    let (_, rest) = sign(Sign::CloseBracket, after)?;
    Ok((array_at(place, slots.items), rest))
}

/// Any number of expressions with commas between them, and maybe one behind the last, `[ expr { "," expr } [","] ]`.
#[cycle(parse)]
#[tactic(auto, unfolding(dsl_grammar::specs::Grammar::Elements, dsl_grammar::specs::Grammar::CommaSlot))]
fn elements<'a>(
    alloc: Global,
    most: usize,
    tokens: &'a [Token],
) -> Result<(Slots, &'a [Token]), Stop<'a>>
    requires { length tokens.now < most }
    ensures { Gives slots_view result (read_by most Elements tokens.now) }
{
    let none = Slots {
        items: Vec::new(alloc),
        full: true,
    };
    let (begin, mut rest) = slot(alloc, most, tokens)?;
    let mut slots = with_slot(none, begin)?;
    while at_slot(&slots, rest) {
        let (next, after) = slot(alloc, most, after_first(rest))?;
        let longer = with_slot(slots, next)?;
        slots = longer;
        rest = after;
    }
    Ok((slots, rest))
}

/// An expression, or none, `[ expr ]`.
#[cycle(parse)]
#[tactic(auto, unfolding(dsl_grammar::specs::Grammar::Slot))]
pub(crate) fn slot<'a>(
    alloc: Global,
    most: usize,
    tokens: &'a [Token],
) -> Result<(Option<Expr>, &'a [Token]), Stop<'a>>
    requires { length tokens.now < most }
    ensures { Gives maybe_expr_view result (read_by most Slot tokens.now) }
{
    if at_expr(tokens) {
        let (next, rest) = expr(alloc, most - 1, tokens)?;
        Ok((Some(next), rest))
    } else {
        Ok((None, tokens))
    }
}

/// A dictionary, `"{" {bsep} [ pair { bsep {bsep} pair } {bsep} ] "}"`.
#[cycle(parse)]
#[tactic(auto, unfolding(dsl_grammar::specs::Grammar::Dict, dsl_grammar::specs::Grammar::BracedPairs))]
pub(crate) fn dictionary<'a>(
    alloc: Global,
    most: usize,
    tokens: &'a [Token],
) -> Result<(Expr, &'a [Token]), Stop<'a>>
    requires { length tokens.now ≤ most }
    ensures { Gives expr_view result (read_by most Dict tokens.now) }
{
    let [first, ..] = tokens else {
        return Err(Stop::Fault(tokens));
    };
    let place = first.place;
    let (_, inner) = sign(Sign::OpenBrace, tokens)?;
    let (entries, after) = pairs(alloc, most, inner)?;
    let (_, rest) = sign(Sign::CloseBrace, after)?;
    Ok((dictionary_at(place, entries), rest))
}

/// Pairs with separators between them, before them and behind them, `{bsep} [ pair { bsep {bsep} pair } {bsep} ]`.
#[cycle(parse)]
#[tactic(auto, unfolding(dsl_grammar::specs::Grammar::Pairs))]
fn pairs<'a>(
    alloc: Global,
    most: usize,
    tokens: &'a [Token],
) -> Result<(Vec<(Text, Expr)>, &'a [Token]), Stop<'a>>
    requires { length tokens.now < most }
    ensures { Gives (λ ps. entries_view ps.items) result (read_by most Pairs tokens.now) }
{
    let (mut entries, mut rest) = with_pair(alloc, most, Vec::new(alloc), tokens)?;
    while at_body_separator(rest) {
        let (longer, after) = with_pair(alloc, most, entries, after_first(rest))?;
        entries = longer;
        rest = after;
    }
    Ok((entries, rest))
}

/// The entries, with that of a key and its value if one stands next, `[ ( IDENT | STRING ) "=" nl expr ]`.
#[cycle(parse)]
#[tactic(auto, unfolding(dsl_grammar::specs::Grammar::MaybePair, dsl_grammar::specs::Grammar::Pair))]
fn with_pair<'a>(
    alloc: Global,
    most: usize,
    entries: Vec<(Text, Expr)>,
    tokens: &'a [Token],
) -> Result<(Vec<(Text, Expr)>, &'a [Token]), Stop<'a>>
    requires { length tokens.now < most }
    ensures { Gives (λ ps. entries_view ps.items) result
        (read_by most (made (add_turn add_pair (entries_view entries.items)) MaybePair) tokens.now) }
{
    if !at_key(tokens) {
        return Ok((entries, tokens));
    }
    let (name, middle) = key(tokens)?;
    let (_, inner) = sign(Sign::Set, middle)?;
    let (value, rest) = expr(alloc, most - 1, newlines(most, inner))?;
    Ok((with_entry(entries, (name, value))?, rest))
}
