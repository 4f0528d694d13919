// The next token.
ghost use Rattle.std.specs.Prelude.{◌≡◌, ◌<◌, ◌≤◌, [], ◌∷◌, drop, length};
ghost use Rattle.dsl_rules.specs.Alphabet.{at, same, skip};
ghost use Rattle.dsl_rules.specs.Reading.{got, one_read};
ghost use Rattle.dsl_grammar.specs.Codes.{sorts, kind_sort, word_sort, sign_sort, ident_sort, string_sort, line_sort};
ghost use Rattle.dsl_next.specs.Gives.{Gives};
ghost use Rattle.dsl_grammar.specs.Files.{head_place};
ghost use Rattle.dsl_grammar.specs.Reading.{read_by};
ghost use Rattle.dsl_grammar.specs.Terms.{nl, text};

use crate::stop::Stop;
use dsl_lexer::{Sign, Token, TokenKind, Word};
use site_base::{Place, Text};

/// A sign that must stand here: its place, and the tokens behind it.
pub fn sign<'a>(sign: Sign, tokens: &'a [Token]) -> Result<(Place, &'a [Token]), Stop<'a>>
    ensures { Gives (λ p. p) result (one_read sorts (sign_sort sign ∷ []) (λ t. t.place) tokens.now) }
{
    match tokens {
        [token, rest @ ..] if is_sign(sign, token) => Ok((token.place, rest)),
        _ => Err(Stop::Fault(tokens)),
    }
}

/// A word that must stand here: its place, and the tokens behind it.
pub fn word<'a>(word: Word, tokens: &'a [Token]) -> Result<(Place, &'a [Token]), Stop<'a>>
    ensures { Gives (λ p. p) result (one_read sorts (word_sort word ∷ []) (λ t. t.place) tokens.now) }
{
    match tokens {
        [token, rest @ ..] if is_word(word, token) => Ok((token.place, rest)),
        _ => Err(Stop::Fault(tokens)),
    }
}

/// Whether the next token is this sign.
pub fn at_sign(sign: Sign, tokens: &[Token]) -> bool
    ensures { result ≡ at sorts (sign_sort sign ∷ []) tokens.now }
{
    match tokens {
        [token, ..] => is_sign(sign, token),
        [] => false,
    }
}

/// Whether the next token is this word.
pub fn at_word(word: Word, tokens: &[Token]) -> bool
    ensures { result ≡ at sorts (word_sort word ∷ []) tokens.now }
{
    match tokens {
        [token, ..] => is_word(word, token),
        [] => false,
    }
}

/// Whether the next token is an identifier.
pub fn at_ident(tokens: &[Token]) -> bool
    ensures { result ≡ at sorts (ident_sort ∷ []) tokens.now }
{
    matches!(
        tokens,
        [
            Token {
                kind: TokenKind::Ident(_),
                ..
            },
            ..
        ]
    )
}

/// Whether the next token is a string.
pub fn at_string(tokens: &[Token]) -> bool
    ensures { result ≡ at sorts (string_sort ∷ []) tokens.now }
{
    matches!(
        tokens,
        [
            Token {
                kind: TokenKind::Str(_),
                ..
            },
            ..
        ]
    )
}

/// Whether the next token is a newline.
fn at_line(tokens: &[Token]) -> bool
    ensures { result ≡ at sorts (line_sort ∷ []) tokens.now }
{
    matches!(
        tokens,
        [
            Token {
                kind: TokenKind::NewLine,
                ..
            },
            ..
        ]
    )
}

/// An identifier, and the tokens behind it.
pub fn ident<'a>(tokens: &'a [Token]) -> Result<(Text, &'a [Token]), Stop<'a>>
    ensures { Gives (λ t. t) result (one_read sorts (ident_sort ∷ []) text tokens.now) }
{
    match tokens {
        [
            Token {
                kind: TokenKind::Ident(name),
                ..
            },
            rest @ ..,
        ] => Ok((name.clone()?, rest)),
        _ => Err(Stop::Fault(tokens)),
    }
}

/// A string, and the tokens behind it.
pub fn string<'a>(tokens: &'a [Token]) -> Result<(Text, &'a [Token]), Stop<'a>>
    ensures { Gives (λ t. t) result (one_read sorts (string_sort ∷ []) text tokens.now) }
{
    match tokens {
        [
            Token {
                kind: TokenKind::Str(value),
                ..
            },
            rest @ ..,
        ] => Ok((value.clone()?, rest)),
        _ => Err(Stop::Fault(tokens)),
    }
}

/// A key: an identifier or a string, and the tokens behind it.
pub fn key<'a>(tokens: &'a [Token]) -> Result<(Text, &'a [Token]), Stop<'a>>
    ensures { Gives (λ t. t) result (one_read sorts (ident_sort ∷ string_sort ∷ []) text tokens.now) }
{
    if at_ident(tokens) {
        ident(tokens)
    } else {
        string(tokens)
    }
}

/// The tokens behind the next one.
pub fn after_first(tokens: &[Token]) -> &[Token]
    ensures { result.now ≡ drop 1 tokens.now }
{
    match tokens {
        [_, rest @ ..] => rest,
        [] => tokens,
    }
}

/// Where the first of these tokens stands.
pub fn place_of(tokens: &[Token]) -> Place
    requires { 0 < length tokens.now }
    ensures { result ≡ head_place tokens.now }
{
    tokens[0].place
}

/// The tokens behind all newlines.
pub fn skip_lines(tokens: &[Token]) -> &[Token]
    ensures { result.now ≡ skip sorts tokens.now }
{
    let mut rest = tokens;
    while at_line(rest) {
        rest = after_first(rest);
    }
    rest
}

/// The tokens behind all newlines, as productions read them.
#[tactic(auto, unfolding(dsl_grammar::specs::Terms::nl))]
pub fn newlines(most: usize, tokens: &[Token]) -> &[Token]
    requires { length tokens.now ≤ most }
    ensures { read_by most nl tokens.now ≡ got 0 result.now }
{
    let mut rest = tokens;
    for _ in 0..most {
        if !at_line(rest) {
            break;
        }
        rest = after_first(rest);
    }
    rest
}

fn is_sign(sign: Sign, token: &Token) -> bool
    ensures { result ≡ same (kind_sort token.now.kind) (sign_sort sign) }
{
    match &token.kind {
        TokenKind::Sign(found) => *found == sign,
        _ => false,
    }
}

fn is_word(word: Word, token: &Token) -> bool
    ensures { result ≡ same (kind_sort token.now.kind) (word_sort word) }
{
    match &token.kind {
        TokenKind::Word(found) => *found == word,
        _ => false,
    }
}
