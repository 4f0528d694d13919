// The arms of an `if`.
ghost use Rattle.std.specs.Prelude.{◌≡◌, ◌<◌, IfOk, [], ◌∷◌};
ghost use Rattle.dsl_lexer.specs.declared.word.Word.TheVariants.{Else as else_word};
ghost use Rattle.dsl_syntax.specs.SyntaxView.{stmt_kind_view, armed_view};
ghost use Rattle.dsl_grammar.specs.Codes.{sorts, word_sort};
ghost use Rattle.dsl_grammar.specs.Grammar.{Else, first_arm, add_else, choice_value, may_else};
ghost use Rattle.dsl_statements.specs.Parts.{choice_view, otherwise_view};
ghost use Rattle.dsl_rules.specs.Rules.{may};

use dsl_lexer::{Token, Word};
use dsl_next::next::at_word;
use dsl_syntax::{Arm, Stmt, StmtKind};
use std::alloc::{AllocFailed, Global};

/// The arms of an `if` so far.
#[derive(Drop)]
pub struct Choice {
    pub arms: Vec<Arm>,
    /// What is run if no condition holds.
    pub other: Vec<Stmt>,
    /// Whether an `else` may follow.
    pub more: bool,
}

/// What stands behind an `else`: an `if` of its own, or a block.
#[derive(Drop)]
pub enum Otherwise {
    If(Arm),
    Block(Vec<Stmt>),
}

/// The choice of one arm.
pub fn choice_of(alloc: Global, arm: Arm) -> Result<Choice, AllocFailed<Arm>>
    ensures { IfOk result (λ c. choice_view c ≡ first_arm (armed_view arm)) }
{
    let mut arms = Vec::new(alloc);
    arms.push(arm)?;
    Ok(Choice {
        arms,
        other: Vec::new(alloc),
        more: true,
    })
}

/// The choice with what stands behind an `else`.
pub fn with_else(choice: Choice, otherwise: Otherwise) -> Result<Choice, AllocFailed<Arm>>
    ensures { IfOk result (λ c. choice_view c ≡ add_else (choice_view choice) (otherwise_view otherwise)) }
{
    let Choice {
        mut arms,
        other,
        ..
    } = choice;
    match otherwise {
        Otherwise::If(arm) => {
            arms.push(arm)?;
            Ok(Choice {
                arms,
                other,
                more: true,
            })
        }
        Otherwise::Block(other) => Ok(Choice {
            arms,
            other,
            more: false,
        }),
    }
}

/// The statement of a choice.
#[tactic(auto, using(dsl_syntax::proofs::SyntaxKinds::kind_if))]
pub fn if_of(choice: Choice) -> StmtKind
    ensures { stmt_kind_view result ≡ choice_value (choice_view choice) }
{
    let Choice { arms, other, .. } = choice;
    StmtKind::If { arms, other }
}

/// Whether one more `else` stands here.
#[tactic(auto, using(crate::proofs::Arms::may_follow))]
pub fn goes_on(choice: &Choice, tokens: &[Token]) -> bool
    ensures { result ≡ may sorts (word_sort else_word ∷ []) (may_else (choice_view choice.now)) tokens.now }
{
    at_word(Word::Else, tokens) && choice.more
}
