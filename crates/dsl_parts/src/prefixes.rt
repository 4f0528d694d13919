// The operators before an operand.
ghost use Rattle.std.specs.Prelude.{◌≡◌, ◌≤◌, IfOk, length};
ghost use Rattle.dsl_syntax.specs.SyntaxView.{expr_view};
ghost use Rattle.dsl_syntax.specs.Syntax.{expression, unary};
ghost use Rattle.dsl_rules.specs.Grammar.{made};
ghost use Rattle.dsl_parts.specs.ExprParts.{prefixes_view, read_flat};
ghost use Rattle.dsl_next.specs.Gives.{Gives};
ghost use Rattle.dsl_grammar.specs.Grammar.{prefix as prefix_plain, OnePrefix, Prefixes, add_prefix, with_prefixes};
ghost use Rattle.dsl_grammar.specs.Reading.{read_by};

use crate::operators::{at_prefix, is_prefix, unary_of};
use dsl_lexer::Token;
use dsl_next::stop::Stop;
use dsl_syntax::{Expr, ExprKind, UnOp};
use site_base::Place;
use std::alloc::{AllocError, Global};

/// An operator before an operand, with its place.
#[derive(Clone, Copy, PartialEq, Eq)]
pub struct PrefixSign {
    pub place: Place,
    pub op: UnOp,
}

/// One or more operators before an operand.
#[tactic(auto, unfolding(dsl_grammar::specs::Grammar::Prefixes))]
pub fn prefixes<'a>(
    alloc: Global,
    most: usize,
    tokens: &'a [Token],
) -> Result<(Vec<PrefixSign>, &'a [Token]), Stop<'a>>
    requires { length tokens.now ≤ most }
    ensures { Gives (λ os. prefixes_view os.items) result (read_by most Prefixes tokens.now) }
{
    let (mut signs, mut rest) = more_prefixes(Vec::new(alloc), tokens)?;
    for _ in 0..most {
        if !at_prefix(rest) {
            break;
        }
        let (longer, after) = more_prefixes(signs, rest)?;
        signs = longer;
        rest = after;
    }
    Ok((signs, rest))
}

/// The operators, and the one that must stand next.
#[tactic(auto, using(crate::proofs::PartLists::prefixes_more))]
fn more_prefixes<'a>(
    mut signs: Vec<PrefixSign>,
    tokens: &'a [Token],
) -> Result<(Vec<PrefixSign>, &'a [Token]), Stop<'a>>
    ensures { Gives (λ os. prefixes_view os.items) result
        (read_flat (made (add_prefix (prefixes_view signs.items)) OnePrefix) tokens.now) }
{
    let (sign, rest) = prefix(tokens)?;
    signs.push(sign)?;
    Ok((signs, rest))
}

/// An operator that must stand before an operand here.
fn prefix<'a>(tokens: &'a [Token]) -> Result<(PrefixSign, &'a [Token]), Stop<'a>>
    ensures { Gives (λ p. prefix_plain p.place p.op) result (read_flat OnePrefix tokens.now) }
{
    match tokens {
        [token, rest @ ..] if is_prefix(&token.kind) => {
            let place = token.place;
            let op = unary_of(&token.kind);
            Ok((PrefixSign { place, op }, rest))
        }
        _ => Err(Stop::Fault(tokens)),
    }
}

/// The operand with these operators before it.
pub fn applied(alloc: Global, signs: Vec<PrefixSign>, operand: Expr) -> Result<Expr, AllocError>
    ensures { IfOk result (λ e. expr_view e ≡ with_prefixes (prefixes_view signs.items) (expr_view operand)) }
{
    let mut signs = signs;
    let mut whole = operand;
    while let Some(sign) = signs.pop() {
        whole = unary_with(alloc, sign, whole)?;
    }
    Ok(whole)
}

/// The operand with one operator before it.
fn unary_with(alloc: Global, sign: PrefixSign, operand: Expr) -> Result<Expr, AllocError>
    ensures { IfOk result (λ e. expr_view e ≡ expression sign.place (unary sign.op (expr_view operand))) }
{
    let kind = ExprKind::Unary(sign.op, Box::new(alloc, operand)?);
    Ok(Expr {
        place: sign.place,
        kind,
    })
}
