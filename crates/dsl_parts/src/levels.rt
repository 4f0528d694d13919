// The levels of operators, which one loop reads.
ghost use Rattle.std.specs.Prelude.{◌≡◌, ◌<◌, ◌≤◌};
ghost use Rattle.dsl_lexer.specs.declared.token_kind.TokenKind.TheVariants as kinds;
ghost use Rattle.dsl_parts.specs.Levels.{operator_level as operator_level_plain, next_level, GoesOn};

use dsl_lexer::{Sign, Token, TokenKind, Word};

/// The number of levels: 0 binds tightest, and no operator is of this level or above.
pub const LEVELS: usize = 11;

/// How far a row of operands between operators has come.
#[derive(Clone, Copy, PartialEq, Eq)]
pub struct Climb {
    /// The level of the last operator; none that binds tighter may follow.
    pub level: usize,
    /// How many more operators of this level may follow.
    pub turns: usize,
}

/// The climb with the operator that stands next, where it binds less tightly than `level` and no tighter than the last;
/// of each level at most `most` operators are read.
pub fn climbed(most: usize, level: usize, climb: Climb, tokens: &[Token]) -> Option<Climb>
    requires some { 0 < most }
    requires within { level ≤ 11 }
    ensures { GoesOn most level climb tokens.now result }
{
    let found = level_of(tokens);
    if found < climb.level {
        return None;
    }
    if level <= found {
        return None;
    }
    if climb.level < found {
        return Some(Climb {
            level: found,
            turns: most - 1,
        });
    }
    if climb.turns == 0 {
        return None;
    }
    Some(Climb {
        level: climb.level,
        turns: climb.turns - 1,
    })
}

/// The level of the operator that stands next; `LEVELS` where none does.
fn level_of(tokens: &[Token]) -> usize
    ensures { result ≡ next_level tokens.now }
{
    match tokens {
        [token, ..] => operator_level(&token.kind),
        [] => LEVELS,
    }
}

/// The level of the operator that a token is; `LEVELS` where it is none.
pub(crate) fn operator_level(kind: &TokenKind) -> usize
    ensures { result ≡ operator_level_plain kind.now }
{
    match kind {
        TokenKind::Sign(sign) => sign_level(*sign),
        TokenKind::Word(Word::In) => 4,
        _ => LEVELS,
    }
}

/// The level of the operator that a sign is; `LEVELS` where it is none.
fn sign_level(sign: Sign) -> usize
    ensures { result ≡ operator_level_plain (kinds.Sign sign) }
{
    match sign {
        Sign::Star | Sign::Slash | Sign::Percent => 0,
        Sign::Plus | Sign::Minus => 1,
        Sign::ShiftLeft | Sign::ShiftRight => 2,
        Sign::Less | Sign::Greater | Sign::AtMost | Sign::AtLeast => 3,
        Sign::NotIn => 4,
        Sign::Equal | Sign::NotEqual => 5,
        Sign::BitAnd => 6,
        Sign::BitXor => 7,
        Sign::BitOr => 8,
        Sign::And => 9,
        Sign::Or => 10,
        _ => LEVELS,
    }
}
