// Apply rules.
ghost use Rattle.std.specs.Prelude.{◌<◌, length};
ghost use Rattle.dsl_rules.specs.Grammar.{made};
ghost use Rattle.dsl_next.specs.Gives.{Gives};
ghost use Rattle.dsl_grammar.specs.Grammar.{AnyHead, ApplyHeads, ApplyName, ApplyStatement, add_head};
ghost use Rattle.dsl_statements.specs.NamedView.{heads_view};
ghost use Rattle.dsl_grammar.specs.Reading.{read_by};
ghost use Rattle.dsl_syntax.specs.SyntaxView.{maybe_expr_view, stmt_kind_view};

use crate::blocks::braced;
use crate::exprs::expr;
use crate::functions::captured;
use crate::loops::loop_head;
use dsl_lexer::{Token, Word};
use dsl_next::begins::at_apply_name;
use dsl_next::next::{at_word, ident, word};
use dsl_next::stop::Stop;
use dsl_statements::applies::{Headed, Heads, apply_of, at_head, with_loop, with_target};
use dsl_statements::leads::Within;
use dsl_statements::objects::bodied_of;
use dsl_syntax::{Expr, StmtKind};
use std::alloc::Global;

/// An apply rule, `"apply" IDENT [expr] heads [use] body`, where the expression doesn't begin with `{`.
#[cycle(parse)]
#[tactic(auto, unfolding(dsl_grammar::specs::Grammar::ApplyStatement, dsl_grammar::specs::Grammar::HeadedBody, dsl_grammar::specs::Grammar::UseBody, dsl_grammar::specs::Grammar::Body))]
pub(crate) fn apply_statement<'a>(
    alloc: Global,
    most: usize,
    tokens: &'a [Token],
) -> Result<(StmtKind, &'a [Token]), Stop<'a>>
    requires { length tokens.now < most }
    ensures { Gives stmt_kind_view result (read_by most ApplyStatement tokens.now) }
{
    let (_, begin) = word(Word::Apply, tokens)?;
    let (kind, begin) = ident(begin)?;
    let (name, begin) = apply_name(alloc, most, begin)?;
    let (heads, begin) = apply_heads(alloc, most, begin)?;
    let (uses, begin) = captured(alloc, most, begin)?;
    let (statements, rest) = braced(alloc, most, Within::Body, begin)?;
    let bodied = bodied_of(alloc, uses, statements)?;
    Ok((apply_of(kind, name, Headed { heads, bodied }), rest))
}

/// The name of an apply rule, if it has one.
#[cycle(parse)]
fn apply_name<'a>(
    alloc: Global,
    most: usize,
    tokens: &'a [Token],
) -> Result<(Option<Expr>, &'a [Token]), Stop<'a>>
    requires { length tokens.now < most }
    ensures { Gives maybe_expr_view result (read_by most ApplyName tokens.now) }
{
    if !at_apply_name(tokens) {
        return Ok((None, tokens));
    }
    let (name, rest) = expr(alloc, most - 1, tokens)?;
    Ok((Some(name), rest))
}

/// At most one `"to" IDENT` and at most one `"for" loop`, in either order.
#[cycle(parse)]
#[tactic(auto, unfolding(dsl_grammar::specs::Grammar::ApplyHeads))]
fn apply_heads<'a>(
    alloc: Global,
    most: usize,
    tokens: &'a [Token],
) -> Result<(Heads, &'a [Token]), Stop<'a>>
    requires { length tokens.now < most }
    ensures { Gives heads_view result (read_by most ApplyHeads tokens.now) }
{
    let mut heads = Heads {
        to: None,
        each: None,
    };
    let mut rest = tokens;
    while at_head(&heads, rest) {
        let (more, after) = more_heads(alloc, most, heads, rest)?;
        heads = more;
        rest = after;
    }
    Ok((heads, rest))
}

/// These heads and the one that begins here, `"to" IDENT | "for" loop`.
#[cycle(parse)]
#[tactic(auto, unfolding(dsl_grammar::specs::Grammar::AnyHead))]
fn more_heads<'a>(
    alloc: Global,
    most: usize,
    heads: Heads,
    tokens: &'a [Token],
) -> Result<(Heads, &'a [Token]), Stop<'a>>
    requires { length tokens.now < most }
    ensures { Gives heads_view result (read_by most (made (add_head (heads_view heads)) AnyHead) tokens.now) }
{
    if at_word(Word::To, tokens) {
        let (_, begin) = word(Word::To, tokens)?;
        let (to, rest) = ident(begin)?;
        return Ok((with_target(heads, to), rest));
    }
    let (_, begin) = word(Word::For, tokens)?;
    let (each, rest) = loop_head(alloc, most, begin)?;
    Ok((with_loop(alloc, heads, each)?, rest))
}
