// The statement `for`, and the heads of loops.
ghost use Rattle.std.specs.Prelude.{◌<◌, length};
ghost use Rattle.dsl_syntax.specs.SyntaxView.{each_view, stmt_kind_view};
ghost use Rattle.dsl_next.specs.Gives.{Gives};
ghost use Rattle.dsl_grammar.specs.Grammar.{LoopHead, ForStatement};
ghost use Rattle.dsl_grammar.specs.Reading.{read_by};

use crate::blocks::block;
use crate::exprs::expr;
use dsl_lexer::{Sign, Token, Word};
use dsl_next::next::{ident, sign, word};
use dsl_next::stop::Stop;
use dsl_statements::loops::{for_of, valued};
use dsl_syntax::{Each, StmtKind};
use std::alloc::Global;

/// A loop over a value, `"for" loop block`.
#[cycle(parse)]
#[tactic(auto, unfolding(dsl_grammar::specs::Grammar::ForStatement))]
pub(crate) fn for_statement<'a>(
    alloc: Global,
    most: usize,
    tokens: &'a [Token],
) -> Result<(StmtKind, &'a [Token]), Stop<'a>>
    requires { length tokens.now < most }
    ensures { Gives stmt_kind_view result (read_by most ForStatement tokens.now) }
{
    let (_, begin) = word(Word::For, tokens)?;
    let (each, middle) = loop_head(alloc, most, begin)?;
    let (block, rest) = block(alloc, most - 1, middle)?;
    Ok((for_of(each, block), rest))
}

/// The head of a loop, `"(" IDENT [ "=>" IDENT ] "in" expr ")"`.
#[cycle(parse)]
#[tactic(auto, unfolding(dsl_grammar::specs::Grammar::LoopHead))]
pub(crate) fn loop_head<'a>(
    alloc: Global,
    most: usize,
    tokens: &'a [Token],
) -> Result<(Each, &'a [Token]), Stop<'a>>
    requires { length tokens.now < most }
    ensures { Gives each_view result (read_by most LoopHead tokens.now) }
{
    let (_, rest) = sign(Sign::OpenParen, tokens)?;
    let (key, rest) = ident(rest)?;
    let (value, rest) = valued(rest)?;
    let (_, rest) = word(Word::In, rest)?;
    let (expr, rest) = expr(alloc, most - 1, rest)?;
    let (_, rest) = sign(Sign::CloseParen, rest)?;
    Ok((Each { key, value, expr }, rest))
}
