// What statements are.
ghost use Rattle.std.specs.Prelude.{◌<◌, length};
ghost use Rattle.dsl_syntax.specs.SyntaxView.{stmt_kind_view};
ghost use Rattle.dsl_next.specs.Gives.{Gives};
ghost use Rattle.dsl_grammar.specs.Grammar.{ConstStatement, VarStatement, Define};
ghost use Rattle.dsl_grammar.specs.Reading.{read_by};
ghost use Rattle.dsl_statements.specs.Leads.{led};
ghost use Rattle.dsl_statements.specs.declared.leads.Lead.TheVariants as leads;

use crate::applies::apply_statement;
use crate::assignments::set_or_eval;
use crate::choices::{choices, guarded};
use crate::collections::slot;
use crate::exprs::expr;
use crate::functions::func;
use crate::loops::for_statement;
use crate::objects::named_statement;
use dsl_lexer::{Sign, Token, Word};
use dsl_next::next::{at_sign, ident, newlines, sign, word};
use dsl_next::stop::Stop;
use dsl_parts::functions::define_of;
use dsl_statements::choices::if_of;
use dsl_statements::inclusions::inclusion;
use dsl_statements::leads::Lead;
use dsl_statements::loops::while_of;
use dsl_statements::worded::{heading, worded};
use dsl_syntax::StmtKind;
use std::alloc::Global;

/// The statement that its first tokens say. Short ones are read here: `if`, `"while" "(" expr ")" block` and `"return" [expr]`.
#[cycle(parse)]
#[tactic(auto, unfolding(dsl_grammar::specs::Grammar::IfStatement, dsl_grammar::specs::Grammar::WhileStatement, dsl_grammar::specs::Grammar::ReturnStatement), using(dsl_syntax::proofs::SyntaxKinds::kind_return))]
pub(crate) fn statement_kind<'a>(
    alloc: Global,
    most: usize,
    lead: Lead,
    tokens: &'a [Token],
) -> Result<(StmtKind, &'a [Token]), Stop<'a>>
    requires { length tokens.now < most }
    ensures { Gives stmt_kind_view result (read_by most (led lead) tokens.now) }
{
    match lead {
        Lead::Inclusion => inclusion(alloc, most, tokens),
        Lead::Named(first) => named_statement(alloc, most, first, tokens),
        Lead::Apply => apply_statement(alloc, most, tokens),
        Lead::Const => const_statement(alloc, most, tokens),
        Lead::Var => var_statement(alloc, most, tokens),
        Lead::Worded(first) => worded_statement(alloc, most, first, tokens),
        Lead::If => {
            let (choice, rest) = choices(alloc, most, tokens)?;
            Ok((if_of(choice), rest))
        }
        Lead::While => {
            let (_, begin) = word(Word::While, tokens)?;
            let (arm, rest) = guarded(alloc, most, begin)?;
            Ok((while_of(arm), rest))
        }
        Lead::For => for_statement(alloc, most, tokens),
        Lead::Return => {
            let (_, begin) = word(Word::Return, tokens)?;
            let (expr, rest) = slot(alloc, most, begin)?;
            Ok((StmtKind::Return { expr }, rest))
        }
        Lead::Break => {
            let (_, rest) = word(Word::Break, tokens)?;
            Ok((StmtKind::Break, rest))
        }
        Lead::Continue => {
            let (_, rest) = word(Word::Continue, tokens)?;
            Ok((StmtKind::Continue, rest))
        }
        Lead::Define => define_statement(alloc, most, tokens),
        Lead::SetOrEval => set_or_eval(alloc, most, tokens),
    }
}

/// A variable, `"var" IDENT [ "=" nl expr ]`.
#[cycle(parse)]
#[tactic(auto, unfolding(dsl_grammar::specs::Grammar::VarStatement), using(dsl_syntax::proofs::SyntaxKinds::kind_var))]
fn var_statement<'a>(
    alloc: Global,
    most: usize,
    tokens: &'a [Token],
) -> Result<(StmtKind, &'a [Token]), Stop<'a>>
    requires { length tokens.now < most }
    ensures { Gives stmt_kind_view result (read_by most VarStatement tokens.now) }
{
    let (_, begin) = word(Word::Var, tokens)?;
    let (name, middle) = ident(begin)?;
    if !at_sign(Sign::Set, middle) {
        return Ok((StmtKind::Var { name, expr: None }, middle));
    }
    let (_, inner) = sign(Sign::Set, middle)?;
    let (value, rest) = expr(alloc, most - 1, newlines(most, inner))?;
    let expr = Some(value);
    Ok((StmtKind::Var { name, expr }, rest))
}

/// A constant, `"const" IDENT "=" nl expr`.
#[cycle(parse)]
#[tactic(auto, unfolding(dsl_grammar::specs::Grammar::ConstStatement))]
fn const_statement<'a>(
    alloc: Global,
    most: usize,
    tokens: &'a [Token],
) -> Result<(StmtKind, &'a [Token]), Stop<'a>>
    requires { length tokens.now < most }
    ensures { Gives stmt_kind_view result (read_by most ConstStatement tokens.now) }
{
    let (_, begin) = word(Word::Const, tokens)?;
    let (name, middle) = ident(begin)?;
    let (_, inner) = sign(Sign::Set, middle)?;
    let (expr, rest) = expr(alloc, most - 1, newlines(most, inner))?;
    Ok((StmtKind::Const { name, expr }, rest))
}

/// A word and an expression: `( "import" | "throw" | ( "assign" | "ignore" ) "where" ) expr`.
#[cycle(parse)]
fn worded_statement<'a>(
    alloc: Global,
    most: usize,
    first: Word,
    tokens: &'a [Token],
) -> Result<(StmtKind, &'a [Token]), Stop<'a>>
    requires { length tokens.now < most }
    ensures { Gives stmt_kind_view result (read_by most (led (leads.Worded first)) tokens.now) }
{
    let (_, begin) = heading(first, tokens)?;
    let (expr, rest) = expr(alloc, most - 1, begin)?;
    Ok((worded(first, expr), rest))
}

/// The definition of a function, `"function" IDENT params [use] block`.
#[cycle(parse)]
#[tactic(auto, unfolding(dsl_grammar::specs::Grammar::Define))]
fn define_statement<'a>(
    alloc: Global,
    most: usize,
    tokens: &'a [Token],
) -> Result<(StmtKind, &'a [Token]), Stop<'a>>
    requires { length tokens.now < most }
    ensures { Gives stmt_kind_view result (read_by most Define tokens.now) }
{
    let (_, begin) = word(Word::Function, tokens)?;
    let (name, middle) = ident(begin)?;
    let (func, rest) = func(alloc, most, middle)?;
    Ok((define_of(alloc, name, func)?, rest))
}
