// How deep tokens stand.
ghost use Rattle.std.specs.Prelude.{◌≡◌, ◌≤◌, IfOk};
ghost use Rattle.dsl_depth.specs.Depth.{role as role_plain, joins as joins_plain, joined as joined_plain, deep_at, counted, IsFirstDeep};
ghost use Rattle.dsl_depth.specs.DepthView.{depth_view, IsWhole};

use crate::role::Role;
use dsl_lexer::{Sign, Token, TokenKind, Word};
use site_base::OutOfMemory;
use std::alloc::{AllocFailed, Global};

/// How many brackets may be open.
const MOST_OPEN: usize = 100;

/// How many tokens may weigh on one.
const MOST_WEIGHT: usize = 200;

/// The tokens that count, by the brackets directly inside which they stand.
#[derive(Drop)]
pub(crate) struct Weight {
    /// How many count outside the innermost open bracket, by level, the innermost last.
    outer: Vec<usize>,
    /// How many count inside it.
    inner: usize,
    /// All that count.
    whole: usize,
    /// Whether newlines separate nothing here.
    joined: bool,
}

/// The index of the first token through which more than 100 brackets are open, or on which more than 200 weigh.
pub fn too_deep(alloc: Global, tokens: &[Token]) -> Result<Option<usize>, OutOfMemory>
    ensures exact { IfOk result (λ o. o ≡ deep_at tokens.now) }
    ensures first { IfOk result (λ o. IsFirstDeep tokens.now o) }
{
    let mut weight = Weight {
        outer: Vec::new(alloc),
        inner: 0,
        whole: 0,
        joined: false,
    };
    for (index, token) in tokens.iter().enumerate() {
        count(&mut weight, &token.kind)?;
        if weight.outer.len() > MOST_OPEN || weight.whole > MOST_WEIGHT {
            return Ok(Some(index));
        }
    }
    Ok(None)
}

/// Counts a token in.
fn count(weight: &mut Weight, kind: &TokenKind) -> Result<(), AllocFailed<usize>>
    requires whole { IsWhole weight.old }
    requires small { weight.old.whole ≤ 200 }
    ensures counted { IfOk result (λ _. depth_view weight.new ≡ counted kind.now (depth_view weight.old)) }
    ensures whole { IfOk result (λ _. IsWhole weight.new) }
{
    match role(weight.joined, kind) {
        Role::Opening => {
            weight.outer.push(weight.inner + 1)?;
            weight.inner = 0;
            weight.whole += 1;
        }
        Role::Closing => {
            if let Some(inner) = weight.outer.pop() {
                weight.whole -= weight.inner;
                weight.inner = inner;
            }
        }
        Role::Counted => {
            weight.inner += 1;
            weight.whole += 1;
        }
        Role::Separating => {
            weight.whole -= weight.inner;
            weight.inner = 0;
        }
        Role::Plain => {}
    }
    weight.joined = joined(weight.joined, kind);
    Ok(())
}

/// What a token does; newlines do nothing if they are joined to what stands before them.
fn role(joined: bool, kind: &TokenKind) -> Role
    ensures { result ≡ role_plain joined kind.now }
{
    match kind {
        TokenKind::Sign(sign) => match sign {
            Sign::OpenParen | Sign::OpenBracket | Sign::OpenBrace => Role::Opening,
            Sign::CloseParen | Sign::CloseBracket | Sign::CloseBrace => Role::Closing,
            Sign::Comma | Sign::Semicolon => Role::Separating,
            Sign::Set | Sign::AddSet | Sign::SubtractSet | Sign::MultiplySet | Sign::DivideSet => {
                Role::Plain
            }
            _ => Role::Counted,
        },
        TokenKind::Word(Word::In) => Role::Counted,
        TokenKind::NewLine => {
            if joined {
                Role::Plain
            } else {
                Role::Separating
            }
        }
        _ => Role::Plain,
    }
}

/// Whether newlines are joined to what stands before them, behind a token.
fn joined(before: bool, kind: &TokenKind) -> bool
    ensures { result ≡ joined_plain before kind.now }
{
    match kind {
        TokenKind::NewLine => before,
        _ => joins(kind),
    }
}

/// Whether newlines behind a token separate nothing: it is a binary operator or that of an assignment.
fn joins(kind: &TokenKind) -> bool
    ensures { result ≡ joins_plain kind.now }
{
    match kind {
        TokenKind::Sign(sign) => match sign {
            Sign::OpenParen | Sign::OpenBracket | Sign::OpenBrace => false,
            Sign::CloseParen | Sign::CloseBracket | Sign::CloseBrace => false,
            Sign::Comma | Sign::Semicolon | Sign::Dot | Sign::Arrow => false,
            Sign::Not | Sign::Tilde => false,
            _ => true,
        },
        TokenKind::Word(Word::In) => true,
        _ => false,
    }
}
