// The elements of arrays.
ghost use Rattle.std.specs.Prelude.{◌≡◌, IfOk, [], ◌∷◌};
ghost use Rattle.dsl_syntax.specs.SyntaxView.{maybe_expr_view};
ghost use Rattle.dsl_rules.specs.Rules.{may};
ghost use Rattle.dsl_lexer.specs.declared.sign.Sign.TheVariants as signs;
ghost use Rattle.dsl_grammar.specs.Codes.{sorts, sign_sort};
ghost use Rattle.dsl_parts.specs.ExprParts.{slots_view};
ghost use Rattle.dsl_grammar.specs.Grammar.{add_slot, may_follow};

use dsl_lexer::{Sign, Token};
use dsl_next::next::at_sign;
use dsl_syntax::Expr;
use std::alloc::AllocFailed;

/// What stands between the commas of an array so far.
#[derive(Drop)]
pub struct Slots {
    pub items: Vec<Expr>,
    /// Whether an element stands behind the last comma, so that a further comma may follow.
    pub full: bool,
}

/// The slots with one more behind them.
#[tactic(auto, using(dsl_syntax::proofs::SyntaxLists::exprs_more))]
pub fn with_slot(mut slots: Slots, slot: Option<Expr>) -> Result<Slots, AllocFailed<Expr>>
    ensures { IfOk result (λ s. slots_view s ≡ add_slot (slots_view slots) (maybe_expr_view slot)) }
{
    match slot {
        Some(expr) => {
            slots.items.push(expr)?;
            slots.full = true;
        }
        None => slots.full = false,
    }
    Ok(slots)
}

/// Whether a comma stands next, and a slot may follow.
pub fn at_slot(slots: &Slots, tokens: &[Token]) -> bool
    ensures { result ≡ may sorts (sign_sort signs.Comma ∷ []) (may_follow (slots_view slots.now)) tokens.now }
{
    slots.full && at_sign(Sign::Comma, tokens)
}
