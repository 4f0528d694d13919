// What is assigned, and to what.
ghost use Rattle.std.specs.Prelude.{◌≡◌, ◌<◌, IfOk, Some, None, [], ◌∷◌, not, cond, is_some, true};
ghost use Rattle.dsl_lexer.specs.declared.sign.Sign.TheVariants.{OpenParen};
ghost use Rattle.dsl_syntax.specs.Syntax.{StatementKind};
ghost use Rattle.dsl_syntax.specs.SyntaxView.{expr_view, stmt_kind_view};
ghost use Rattle.dsl_rules.specs.Alphabet.{at, among, and};
ghost use Rattle.dsl_rules.specs.Reading.{one_read};
ghost use Rattle.dsl_grammar.specs.Codes.{sorts, kind_sort, sign_sort};
ghost use Rattle.dsl_next.specs.Gives.{Gives};
ghost use Rattle.dsl_grammar.specs.Grammar.{set_value, assigned, maybe_set, stepped, target_of as target_of_plain};
ghost use Rattle.dsl_grammar.specs.Operators.{set_sorts, set_of as set_of_plain};
ghost use Rattle.dsl_statements.specs.Parts.{setting_view, target_view, set_of_left};

use crate::targets::{Target, is_target, target_of};
use dsl_lexer::{Sign, Token, TokenKind};
use dsl_next::next::at_sign;
use dsl_next::stop::Stop;
use dsl_syntax::{Expr, SetOp, StmtKind};
use site_base::OutOfMemory;
use std::alloc::Global;

/// What is assigned, and how the new value is made of it.
#[derive(Drop)]
pub struct Setting {
    pub op: SetOp,
    pub expr: Expr,
}

/// The operator of an assignment that a token is, if it is one.
fn set_op_of(token: &Token) -> Option<SetOp>
    ensures { result ≡ cond (among (kind_sort token.now.kind) set_sorts) (Some (set_of_plain token.now.kind)) None }
{
    match &token.kind {
        TokenKind::Sign(sign) => match sign {
            Sign::Set => Some(SetOp::Plain),
            Sign::AddSet => Some(SetOp::Add),
            Sign::SubtractSet => Some(SetOp::Sub),
            Sign::MultiplySet => Some(SetOp::Mul),
            Sign::DivideSet => Some(SetOp::Div),
            _ => None,
        },
        _ => None,
    }
}

/// Whether the next token is the operator of an assignment.
fn at_set(tokens: &[Token]) -> bool
    ensures { result ≡ at sorts set_sorts tokens.now }
{
    match tokens {
        [token, ..] => set_op_of(token).is_some(),
        [] => false,
    }
}

/// The operator of an assignment, and the tokens behind it.
pub fn set_op<'a>(tokens: &'a [Token]) -> Result<(SetOp, &'a [Token]), Stop<'a>>
    ensures { Gives (λ o. o) result (one_read sorts set_sorts (λ t. set_of_plain t.kind) tokens.now) }
{
    match tokens {
        [token, rest @ ..] => match set_op_of(token) {
            Some(op) => Ok((op, rest)),
            None => Err(Stop::Fault(tokens)),
        },
        [] => Err(Stop::Fault(tokens)),
    }
}

/// The assignment to a target, whose steps take no more memory than they need.
fn set_of(target: Target, setting: Setting) -> StmtKind
    ensures { (k : StatementKind) → stmt_kind_view result ≡ set_value (assigned (maybe_set k (Some (target_view target))) (setting_view setting)) }
{
    let Target { base, mut steps } = target;
    steps.shrink_to_fit();
    let Setting { op, expr } = setting;
    StmtKind::Set {
        base,
        steps,
        op,
        expr,
    }
}

/// The assignment to what an expression leads to.
pub fn set_left(alloc: Global, left: Expr, setting: Setting) -> Result<StmtKind, OutOfMemory>
    requires { is_some (stepped (target_of_plain (expr_view left))) ≡ true }
    ensures { IfOk result (λ k. stmt_kind_view k ≡ set_of_left (expr_view left) (setting_view setting)) }
{
    match target_of(alloc, left)? {
        Some(target) => Ok(set_of(target, setting)),
        None => unreachable!(),
    }
}

/// Whether an assignment to the expression at these tokens stands here.
pub fn sets(left: &Expr, tokens: &[Token], rest: &[Token]) -> bool
    ensures { result ≡ and (is_some (stepped (target_of_plain (expr_view left.now)))) (and (not (at sorts (sign_sort OpenParen ∷ []) tokens.now)) (at sorts set_sorts rest.now)) }
{
    is_target(left) && !at_sign(Sign::OpenParen, tokens) && at_set(rest)
}
