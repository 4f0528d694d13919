// The operators of expressions.
ghost use Rattle.std.specs.Prelude.{◌≡◌, ◌≤◌, length};
ghost use Rattle.dsl_rules.specs.Alphabet.{among, at};
ghost use Rattle.dsl_grammar.specs.Codes.{sorts, kind_sort, sign_sort};
ghost use Rattle.dsl_next.specs.Gives.{Gives};
ghost use Rattle.dsl_grammar.specs.Grammar.{Operator};
ghost use Rattle.dsl_grammar.specs.Operators.{level_sorts, binary_of as binary_plain, unary_sorts, unary_of as unary_plain};
ghost use Rattle.dsl_grammar.specs.Reading.{read_by};

use crate::levels::operator_level;
use dsl_lexer::{Sign, Token, TokenKind, Word};
use dsl_next::next::newlines;
use dsl_next::stop::Stop;
use dsl_syntax::{BinOp, UnOp};

/// An operator of a level, and the tokens behind it and the newlines that follow.
#[tactic(auto, unfolding(dsl_grammar::specs::Grammar::Operator))]
pub fn operator<'a>(
    most: usize,
    level: usize,
    tokens: &'a [Token],
) -> Result<(BinOp, &'a [Token]), Stop<'a>>
    requires within { level ≤ 10 }
    requires bound { length tokens.now ≤ most }
    ensures { Gives (λ o. o) result (read_by most (Operator level) tokens.now) }
{
    match tokens {
        [token, rest @ ..] if is_operator(level, &token.kind) => {
            Ok((binary_of(&token.kind), newlines(most, rest)))
        }
        _ => Err(Stop::Fault(tokens)),
    }
}

/// Whether the next token is an operator that stands before its operand.
pub fn at_prefix(tokens: &[Token]) -> bool
    ensures { result ≡ at sorts unary_sorts tokens.now }
{
    match tokens {
        [token, ..] => is_prefix(&token.kind),
        [] => false,
    }
}

/// Whether the token is an operator of the level.
fn is_operator(level: usize, kind: &TokenKind) -> bool
    requires { level ≤ 10 }
    ensures { result ≡ among (kind_sort kind.now) (level_sorts level) }
{
    level == operator_level(kind)
}

/// The binary operator that a token is; any other token counts as `||`.
fn binary_of(kind: &TokenKind) -> BinOp
    ensures { result ≡ binary_plain kind.now }
{
    match kind {
        TokenKind::Sign(sign) => match sign {
            Sign::Star => BinOp::Mul,
            Sign::Slash => BinOp::Div,
            Sign::Percent => BinOp::Rem,
            Sign::Plus => BinOp::Add,
            Sign::Minus => BinOp::Sub,
            Sign::ShiftLeft => BinOp::ShiftLeft,
            Sign::ShiftRight => BinOp::ShiftRight,
            Sign::Less => BinOp::Less,
            Sign::Greater => BinOp::Greater,
            Sign::AtMost => BinOp::LessEqual,
            Sign::AtLeast => BinOp::GreaterEqual,
            Sign::NotIn => BinOp::NotIn,
            Sign::Equal => BinOp::Equal,
            Sign::NotEqual => BinOp::NotEqual,
            Sign::BitAnd => BinOp::BitAnd,
            Sign::BitXor => BinOp::BitXor,
            Sign::BitOr => BinOp::BitOr,
            Sign::And => BinOp::And,
            _ => BinOp::Or,
        },
        TokenKind::Word(Word::In) => BinOp::In,
        _ => BinOp::Or,
    }
}

/// Whether the token is an operator that stands before its operand.
pub(crate) fn is_prefix(kind: &TokenKind) -> bool
    ensures { result ≡ among (kind_sort kind.now) unary_sorts }
{
    match kind {
        TokenKind::Sign(sign) => match sign {
            Sign::Not | Sign::Tilde | Sign::Plus | Sign::Minus => true,
            _ => false,
        },
        _ => false,
    }
}

/// The operator before an operand that a token is; any other token counts as `-`.
pub(crate) fn unary_of(kind: &TokenKind) -> UnOp
    ensures { result ≡ unary_plain kind.now }
{
    match kind {
        TokenKind::Sign(sign) => match sign {
            Sign::Not => UnOp::Not,
            Sign::Tilde => UnOp::Complement,
            Sign::Plus => UnOp::Plus,
            _ => UnOp::Minus,
        },
        _ => UnOp::Minus,
    }
}
