// Statements of files, of blocks, and of the bodies of objects, templates and apply rules.
ghost use Rattle.std.specs.Prelude.{◌<◌, ◌≤◌, length};
ghost use Rattle.dsl_rules.specs.Grammar.{made};
ghost use Rattle.dsl_next.specs.Gives.{Gives};
ghost use Rattle.dsl_syntax.specs.Lists.{add_statement};
ghost use Rattle.dsl_grammar.specs.Reading.{reads, read_by};
ghost use Rattle.dsl_grammar.specs.Terms.{add_turn, block as block_name};
ghost use Rattle.dsl_syntax.specs.SyntaxView.{stmts_view};
ghost use Rattle.dsl_statements.specs.Leads.{all_in, braced_in, maybe_in};

use crate::statements::statement_kind;
use dsl_lexer::{Sign, Token};
use dsl_next::next::{after_first, sign};
use dsl_next::stop::Stop;
use dsl_statements::leads::{Within, added, next_lead, separates};
use dsl_syntax::Stmt;
use std::alloc::Global;

/// A block, `"{" {sep} [ stmt { sep {sep} stmt } {sep} ] "}"`.
#[cycle(parse)]
pub(crate) fn block<'a>(
    alloc: Global,
    most: usize,
    tokens: &'a [Token],
) -> Result<(Vec<Stmt>, &'a [Token]), Stop<'a>>
    requires { length tokens.now ≤ most }
    ensures { Gives (λ b. stmts_view b.items) result (reads most block_name tokens.now) }
{
    braced(alloc, most, Within::Block, tokens)
}

/// Statements in braces.
#[cycle(parse)]
pub(crate) fn braced<'a>(
    alloc: Global,
    most: usize,
    within: Within,
    tokens: &'a [Token],
) -> Result<(Vec<Stmt>, &'a [Token]), Stop<'a>>
    requires { length tokens.now ≤ most }
    ensures { Gives (λ b. stmts_view b.items) result (read_by most (braced_in within) tokens.now) }
{
    let (_, inner) = sign(Sign::OpenBrace, tokens)?;
    let (list, end) = statements(alloc, most, within, inner)?;
    let (_, rest) = sign(Sign::CloseBrace, end)?;
    Ok((list, rest))
}

/// Statements with separators between them, before them and behind them.
#[cycle(parse)]
pub(crate) fn statements<'a>(
    alloc: Global,
    most: usize,
    within: Within,
    tokens: &'a [Token],
) -> Result<(Vec<Stmt>, &'a [Token]), Stop<'a>>
    requires { length tokens.now < most }
    ensures { Gives (λ b. stmts_view b.items) result (read_by most (all_in within) tokens.now) }
{
    let (mut list, mut rest) = with_statement(alloc, most, within, Vec::new(alloc), tokens)?;
    while separates(within, rest) {
        let (more, after) = with_statement(alloc, most, within, list, after_first(rest))?;
        list = more;
        rest = after;
    }
    Ok((list, rest))
}

/// These statements, and one more if one begins here.
#[cycle(parse)]
fn with_statement<'a>(
    alloc: Global,
    most: usize,
    within: Within,
    list: Vec<Stmt>,
    tokens: &'a [Token],
) -> Result<(Vec<Stmt>, &'a [Token]), Stop<'a>>
    requires { length tokens.now < most }
    ensures { Gives (λ b. stmts_view b.items) result
        (read_by most (made (add_turn add_statement (stmts_view list.items)) (maybe_in within)) tokens.now) }
{
    let Some((place, lead)) = next_lead(within, tokens) else {
        return Ok((list, tokens));
    };
    let (kind, rest) = statement_kind(alloc, most, lead, tokens)?;
    Ok((added(list, place, kind)?, rest))
}
