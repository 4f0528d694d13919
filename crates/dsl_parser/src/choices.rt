// The arms of an `if`.
ghost use Rattle.std.specs.Prelude.{◌<◌, length};
ghost use Rattle.dsl_syntax.specs.SyntaxView.{armed_view};
ghost use Rattle.dsl_next.specs.Gives.{Gives};
ghost use Rattle.dsl_grammar.specs.Grammar.{Choices, Else, Guarded, add_else};
ghost use Rattle.dsl_statements.specs.Parts.{choice_view};
ghost use Rattle.dsl_grammar.specs.Reading.{read_by};
ghost use Rattle.dsl_rules.specs.Grammar.{made};

use crate::blocks::block;
use crate::exprs::expr;
use dsl_lexer::{Sign, Token, Word};
use dsl_next::next::{at_word, sign, skip_lines, word};
use dsl_next::stop::Stop;
use dsl_statements::choices::{Choice, Otherwise, choice_of, goes_on, with_else};
use dsl_statements::loops::arm_of;
use dsl_syntax::Arm;
use std::alloc::Global;

/// The arms of an `if`: `"if" "(" expr ")" block { nl "else" "if" "(" expr ")" block } [ nl "else" block ]`.
#[cycle(parse)]
#[tactic(auto, unfolding(dsl_grammar::specs::Grammar::Choices, dsl_grammar::specs::Grammar::FirstChoice))]
pub(crate) fn choices<'a>(
    alloc: Global,
    most: usize,
    tokens: &'a [Token],
) -> Result<(Choice, &'a [Token]), Stop<'a>>
    requires { length tokens.now < most }
    ensures { Gives choice_view result (read_by most Choices tokens.now) }
{
    let (_, begin) = word(Word::If, tokens)?;
    let (arm, mut rest) = guarded(alloc, most, begin)?;
    let mut choice = choice_of(alloc, arm)?;
    while goes_on(&choice, skip_lines(rest)) {
        let behind = skip_lines(rest);
        let (next, after) = more_choice(alloc, most, choice, behind)?;
        choice = next;
        rest = after;
    }
    Ok((choice, rest))
}

/// The choice with what stands behind the next `else`: an `if`, or a block.
#[cycle(parse)]
#[tactic(auto, unfolding(dsl_grammar::specs::Grammar::Else, dsl_grammar::specs::Grammar::ElseIf))]
fn more_choice<'a>(
    alloc: Global,
    most: usize,
    choice: Choice,
    tokens: &'a [Token],
) -> Result<(Choice, &'a [Token]), Stop<'a>>
    requires { length tokens.now < most }
    ensures { Gives choice_view result (read_by most (made (add_else (choice_view choice)) Else) tokens.now) }
{
    let (_, begin) = word(Word::Else, tokens)?;
    if at_word(Word::If, begin) {
        let (_, begin) = word(Word::If, begin)?;
        let (arm, rest) = guarded(alloc, most, begin)?;
        Ok((with_else(choice, Otherwise::If(arm))?, rest))
    } else {
        let (block, rest) = block(alloc, most - 1, begin)?;
        Ok((with_else(choice, Otherwise::Block(block))?, rest))
    }
}

/// A condition and a block, `"(" expr ")" block`.
#[cycle(parse)]
#[tactic(auto, unfolding(dsl_grammar::specs::Grammar::Guarded))]
pub(crate) fn guarded<'a>(
    alloc: Global,
    most: usize,
    tokens: &'a [Token],
) -> Result<(Arm, &'a [Token]), Stop<'a>>
    requires { length tokens.now < most }
    ensures { Gives armed_view result (read_by most Guarded tokens.now) }
{
    let (_, inner) = sign(Sign::OpenParen, tokens)?;
    let (cond, after) = expr(alloc, most - 1, inner)?;
    let (_, begin) = sign(Sign::CloseParen, after)?;
    let (block, rest) = block(alloc, most - 1, begin)?;
    Ok((arm_of(cond, block), rest))
}
