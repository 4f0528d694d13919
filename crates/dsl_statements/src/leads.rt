// Which statement stands where.
ghost use Rattle.std.specs.Prelude.{◌≡◌, ◌≤◌, IfOk, IfSome};
ghost use Rattle.dsl_syntax.specs.Lists.{add_statement};
ghost use Rattle.dsl_syntax.specs.Syntax.{statement};
ghost use Rattle.dsl_syntax.specs.SyntaxView.{stmt_kind_view, stmts_view};
ghost use Rattle.dsl_rules.specs.Alphabet.{at};
ghost use Rattle.dsl_grammar.specs.Codes.{sorts};
ghost use Rattle.dsl_statements.specs.Leads.{LeadsTo, rank, room, separators, first_sorts, lead_of as lead_plain, block_lead as block_plain, body_lead as body_plain, common_lead as common_plain, function_lead as function_plain};

use dsl_lexer::{Token, TokenKind, Word};
use dsl_next::begins::{
    at_body_separator, at_body_statement, at_define, at_inclusion, at_separator, at_statement,
    at_top,
};
use dsl_next::next::place_of;
use dsl_syntax::{Stmt, StmtKind};
use site_base::Place;
use std::alloc::AllocFailed;

/// Where a statement stands.
#[derive(Clone, Copy, PartialEq, Eq)]
pub enum Within {
    File,
    Block,
    /// The braces of an object, a template or an apply rule.
    Body,
}

/// Which statement it is, as its first tokens say.
#[derive(Clone, Copy, PartialEq, Eq)]
pub enum Lead {
    Inclusion,
    /// An `object` or a `template`, by its word.
    Named(Word),
    Apply,
    Const,
    Var,
    /// An `import`, `throw`, `assign` or `ignore`, by its word.
    Worded(Word),
    If,
    While,
    For,
    Return,
    Break,
    Continue,
    /// The definition of a function.
    Define,
    /// An assignment or an expression.
    SetOrEval,
}

/// Whether what separates statements stands here.
pub fn separates(within: Within, tokens: &[Token]) -> bool
    ensures { result ≡ at sorts (separators within) tokens.now }
{
    match within {
        Within::File | Within::Block => at_separator(tokens),
        Within::Body => at_body_separator(tokens),
    }
}

/// Where the next statement begins and which it is, if one that may stand there begins here.
pub fn next_lead(within: Within, tokens: &[Token]) -> Option<(Place, Lead)>
    ensures reads { LeadsTo within tokens.now result }
    ensures low { IfSome result (λ x. rank x.1 ≤ room within) }
{
    if !begins(within, tokens) {
        return None;
    }
    Some((place_of(tokens), lead_in(within, tokens)))
}

/// The statements with one more behind them.
#[tactic(auto, using(dsl_syntax::proofs::SyntaxLists::stmts_more))]
pub fn added(
    mut list: Vec<Stmt>,
    place: Place,
    kind: StmtKind,
) -> Result<Vec<Stmt>, AllocFailed<Stmt>>
    ensures { IfOk result
        (λ b. stmts_view b.items ≡ add_statement (stmts_view list.items) (statement place (stmt_kind_view kind))) }
{
    list.push(Stmt { place, kind })?;
    Ok(list)
}

/// Whether a statement that may stand there begins here.
fn begins(within: Within, tokens: &[Token]) -> bool
    ensures { result ≡ at sorts (first_sorts within) tokens.now }
{
    match within {
        Within::File => at_top(tokens),
        Within::Block => at_statement(tokens),
        Within::Body => at_body_statement(tokens),
    }
}

fn lead_in(within: Within, tokens: &[Token]) -> Lead
    ensures { result ≡ lead_plain within tokens.now }
{
    match within {
        Within::File => {
            if at_inclusion(tokens) {
                return Lead::Inclusion;
            }
            block_lead(tokens)
        }
        Within::Block => block_lead(tokens),
        Within::Body => body_lead(tokens),
    }
}

fn block_lead(tokens: &[Token]) -> Lead
    ensures { result ≡ block_plain tokens.now }
{
    match tokens {
        [
            Token {
                kind: TokenKind::Word(word),
                ..
            },
            ..
        ] => match word {
            Word::Object => Lead::Named(Word::Object),
            Word::Template => Lead::Named(Word::Template),
            Word::Apply => Lead::Apply,
            Word::Const => Lead::Const,
            _ => common_lead(tokens),
        },
        _ => common_lead(tokens),
    }
}

fn body_lead(tokens: &[Token]) -> Lead
    ensures { result ≡ body_plain tokens.now }
{
    match tokens {
        [
            Token {
                kind: TokenKind::Word(word),
                ..
            },
            ..
        ] => match word {
            Word::Assign => Lead::Worded(Word::Assign),
            Word::Ignore => Lead::Worded(Word::Ignore),
            _ => common_lead(tokens),
        },
        _ => common_lead(tokens),
    }
}

/// Which statement it is of those that may stand in blocks and in bodies.
fn common_lead(tokens: &[Token]) -> Lead
    ensures { result ≡ common_plain tokens.now }
{
    match tokens {
        [
            Token {
                kind: TokenKind::Word(word),
                ..
            },
            ..
        ] => match word {
            Word::Var => Lead::Var,
            Word::Import => Lead::Worded(Word::Import),
            Word::If => Lead::If,
            Word::While => Lead::While,
            Word::For => Lead::For,
            Word::Return => Lead::Return,
            Word::Break => Lead::Break,
            Word::Continue => Lead::Continue,
            Word::Throw => Lead::Worded(Word::Throw),
            Word::Function => function_lead(tokens),
            _ => Lead::SetOrEval,
        },
        _ => Lead::SetOrEval,
    }
}

/// The definition of a function, or else an expression.
fn function_lead(tokens: &[Token]) -> Lead
    ensures { result ≡ function_plain tokens.now }
{
    if at_define(tokens) {
        Lead::Define
    } else {
        Lead::SetOrEval
    }
}
