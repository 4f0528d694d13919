// The tokens of a text.
ghost use Rattle.std.specs.Prelude.{◌≡◌, ◌+◌, ◌-◌, ◌<◌, ◌≤◌, ◌^◌, length, OnOk, IfOk, ℕ, List, Bool, ◌++◌};
ghost use Rattle.std.specs.Str.{IsUtf8, is_utf8};
ghost use Rattle.dsl_lexer.specs.Brackets.{opened, keeps};
ghost use Rattle.dsl_lexer.specs.Places.{place_behind as behind, after};
ghost use Rattle.dsl_lexer.specs.Lists.{HasTokens, HasFault, GivesTokens, GivesFault, IsFaultOf, IsWhole};
ghost use Rattle.dsl_lexer.specs.Tokens.{IsToken};
ghost use Rattle.dsl_lexer.specs.Longest.{IsSpelling};
ghost use Rattle.dsl_lexer.specs.declared.token.Token.{Token};
ghost use Rattle.dsl_lexer.specs.declared.token_kind.TokenKind.{TokenKind};
ghost use Rattle.site_base.specs.declared.place.Place.{Place};
ghost use Rattle.dsl_lexer.specs.Lexing.{Gives, all, bad, file_tokens, lexed};

use crate::interner::Interner;
use crate::stepping::{Step, next_step};
use crate::{LexError, LexFault, Sign, Token, TokenKind};
use site_base::{OutOfMemory, Place, Row};
use std::alloc::Global;

/// The tokens of the bytes of a file, which is the one with this index in a list of files. The last is
/// the end token, no other is, and their places rise.
///
/// The longest spelling is taken. Blanks (space, tab and carriage return) and comments are passed
/// over, and so are newlines where the innermost open bracket is `(` or `[`. A closing bracket closes
/// the last one that is open, whatever it is. See "Syntax" in the chapter "Language Reference" of the
/// Icinga 2 documentation.
///
/// `Fault` where the bytes aren't UTF-8, at the first that isn't, whatever stands before it; else at the
/// first byte, reached token by token, that begins nothing of the language: a string or a comment
/// without its end, a string with another escape or one above 127, a number that [`Num::read`] doesn't
/// take or that a letter, a digit or `_` follows, or a byte with no meaning. `OutOfMemory` if there
/// is no memory for the tokens.
///
/// [`Num::read`]: site_base::Num::read
pub fn lex(alloc: Global, bytes: &[u8], file: u32) -> Result<Row<Token>, LexError>
    requires { length bytes.now < 2 ^ 32 - 1 }
    ensures tokens { IfOk result (λ ts. HasTokens file bytes.now ts) }
    ensures only { (ts : List Token) → HasTokens file bytes.now ts → GivesTokens ts result }
    ensures fault { IsFaultOf file bytes.now result }
    ensures only_fault { (place : Place) → HasFault file bytes.now place → GivesFault place result }
    ensures whole { IfOk result IsWhole }
{
    let start = Place {
        file,
        line: 1,
        col: 1,
    };
    match tokens_of(alloc, bytes, start) {
        Ok(tokens) => Ok(tokens),
        Err(LexError::OutOfMemory) => Err(LexError::OutOfMemory),
        // Bytes that aren't UTF-8 come before any other fault, wherever they stand.
        Err(LexError::Fault(found)) => match str::from_utf8(bytes) {
            Ok(_) => Err(LexError::Fault(found)),
            Err(error) => {
                let (valid, _) = bytes.split_at(error.valid_up_to());
                Err(fault(place_behind(valid, start)))
            }
        },
    }
}

/// The bytes of a file have at most one list of tokens and at most one fault, and never both. This
/// call does nothing: its contract says so.
pub fn tokens_are_one()
    ensures one { (file : ℕ) (bytes : List ℕ) (ts us : List Token) → HasTokens file bytes ts → HasTokens file bytes us → ts ≡ us }
    ensures none { (file : ℕ) (bytes : List ℕ) (ts : List Token) (place : Place) → HasTokens file bytes ts → HasFault file bytes place → ⊥ }
    ensures one_fault { (file : ℕ) (bytes : List ℕ) (p q : Place) → HasFault file bytes p → HasFault file bytes q → p ≡ q }
{}

/// A token is the longest spelling with which the text at its place begins. This call does nothing:
/// its contract says so.
pub fn tokens_are_longest()
    ensures { (is_token : Bool) (k other : TokenKind) (text rest longer behind : List ℕ) → IsToken is_token k text rest → text ++ rest ≡ longer ++ behind
        → IsSpelling other longer behind → length longer ≤ length text }
{}

/// What is read of the bytes of a file, byte by byte, is the tokens that they have or their fault, and
/// they have no other. The tokens are whole. This call does nothing: its contract says so.
pub fn what_is_read_are_the_tokens()
    ensures tokens { (file : ℕ) (bytes : List ℕ) (ts : List Token) → HasTokens file bytes ts → file_tokens file bytes ≡ all ts }
    ensures read { (file : ℕ) (bytes : List ℕ) (ts : List Token) → file_tokens file bytes ≡ all ts → HasTokens file bytes ts }
    ensures whole { (file : ℕ) (bytes : List ℕ) (ts : List Token) → file_tokens file bytes ≡ all ts → IsWhole ts }
    ensures fault { (file : ℕ) (bytes : List ℕ) (place : Place) → HasFault file bytes place → file_tokens file bytes ≡ bad place }
    ensures stopped { (file : ℕ) (bytes : List ℕ) (place : Place) → file_tokens file bytes ≡ bad place → HasFault file bytes place }
{}

fn fault(place: Place) -> LexError
    ensures { result ≡ LexError.Fault (record { place = place }) }
{
    LexError::Fault(LexFault { place })
}

/// The tokens of a text that begins at a place, given only where all of it is UTF-8. Where it isn't, the
/// place of a fault says nothing.
fn tokens_of(alloc: Global, bytes: &[u8], start: Place) -> Result<Row<Token>, LexError>
    requires line { start.line + length bytes.now < 2 ^ 32 }
    requires col { start.col + length bytes.now < 2 ^ 32 }
    ensures text { IfOk result (λ ts. IsUtf8 bytes.now) }
    ensures found { IsUtf8 bytes.now → Gives result (lexed start bytes.now) }
{
    let mut interner = Interner::new(alloc)?;
    let mut tokens = Row::new(alloc);
    let mut brackets = Vec::new(alloc);
    let mut place = start;
    let mut rest = bytes;
    while !rest.is_empty() {
        match next_step(
            alloc,
            &mut interner,
            keeps_newlines(brackets.as_slice()),
            rest,
        )? {
            Step::Passed(len) => {
                let (passed, behind) = rest.split_at(len);
                if !is_text(passed) {
                    return Err(fault(place));
                }
                place = place_behind(passed, place);
                rest = behind;
            }
            Step::Taken(len, kind) => {
                let (taken, behind) = rest.split_at(len);
                open_or_close(&mut brackets, &kind)?;
                tokens.push(Token { place, kind })?;
                place = place_behind(taken, place);
                rest = behind;
            }
            Step::Fault => return Err(fault(place)),
        }
    }
    tokens.push(Token {
        place,
        kind: TokenKind::End,
    })?;
    Ok(tokens)
}

/// Whether bytes that are passed over are UTF-8. Most of the time that is a single blank.
fn is_text(passed: &[u8]) -> bool
    ensures { result ≡ is_utf8 passed.now }
{
    match passed {
        [byte] => byte.is_ascii(),
        _ => str::from_utf8(passed).is_ok(),
    }
}

/// Whether newlines are tokens where these brackets are open, the innermost last.
fn keeps_newlines(brackets: &[Sign]) -> bool
    ensures { result ≡ keeps brackets.now }
{
    !matches!(brackets.last(), Some(Sign::OpenParen | Sign::OpenBracket))
}

/// The open brackets behind a token: an opening one is added, and a closing one takes off the
/// last, whatever it is.
fn open_or_close(brackets: &mut Vec<Sign>, kind: &TokenKind) -> Result<(), OutOfMemory>
    ensures { OnOk result (brackets.new.items ≡ opened kind.now brackets.old.items) }
{
    match kind {
        TokenKind::Sign(sign @ (Sign::OpenParen | Sign::OpenBracket | Sign::OpenBrace)) => {
            brackets.push(*sign)?;
        }
        TokenKind::Sign(Sign::CloseParen | Sign::CloseBracket | Sign::CloseBrace) => {
            brackets.pop();
        }
        _ => {}
    }
    Ok(())
}

/// The place behind these bytes.
fn place_behind(bytes: &[u8], start: Place) -> Place
    requires line { start.line + length bytes.now < 2 ^ 32 }
    requires col { start.col + length bytes.now < 2 ^ 32 }
    ensures value { result ≡ behind bytes.now start }
    ensures line { result.line ≤ start.line + length bytes.now }
    ensures col { result.col ≤ start.col + length bytes.now }
{
    let mut place = start;
    for byte in bytes {
        place = place_after(place, *byte);
    }
    place
}

/// The place behind one byte.
fn place_after(place: Place, byte: u8) -> Place
    requires line { place.line < 2 ^ 32 - 1 }
    requires col { place.col < 2 ^ 32 - 1 }
    ensures { result ≡ after byte place }
{
    if byte == b'\n' {
        Place {
            line: place.line + 1,
            col: 1,
            ..place
        }
    } else {
        Place {
            col: place.col + 1,
            ..place
        }
    }
}
