// With which tokens things begin.
ghost use Rattle.std.specs.Prelude.{◌≡◌, [], ◌∷◌};
ghost use Rattle.dsl_rules.specs.Alphabet.{among, at, outside};
ghost use Rattle.dsl_lexer.specs.declared.word.Word.TheVariants as words;
ghost use Rattle.dsl_lexer.specs.declared.sign.Sign.TheVariants as signs;
ghost use Rattle.dsl_grammar.specs.Codes.{sorts, kind_sort, word_sort, sign_sort, ident_sort, string_sort};
ghost use Rattle.dsl_grammar.specs.Terms.{expr, starts, sep, bsep};
ghost use Rattle.dsl_grammar.specs.Grammar.{common_sorts, body_sorts, statement_sorts, top_sorts, tail_sorts, begins_define, begins_lambda as begins_plain};

use crate::next::{after_first, at_ident, at_sign, at_word};
use dsl_lexer::{Sign, Token, TokenKind, Word};

/// Whether a statement of a file begins here.
pub fn at_top(tokens: &[Token]) -> bool
    ensures { result ≡ at sorts top_sorts tokens.now }
{
    match tokens {
        [token, ..] => match &token.kind {
            TokenKind::Word(Word::Include | Word::IncludeRecursive) => true,
            kind => begins_statement(kind),
        },
        [] => false,
    }
}

/// Whether an inclusion begins here.
pub fn at_inclusion(tokens: &[Token]) -> bool
    ensures { result ≡ at sorts (word_sort words.Include ∷ word_sort words.IncludeRecursive ∷ []) tokens.now }
{
    matches!(
        tokens,
        [
            Token {
                kind: TokenKind::Word(Word::Include | Word::IncludeRecursive),
                ..
            },
            ..
        ]
    )
}

/// Whether a statement of a block begins here.
pub fn at_statement(tokens: &[Token]) -> bool
    ensures { result ≡ at sorts statement_sorts tokens.now }
{
    match tokens {
        [token, ..] => begins_statement(&token.kind),
        [] => false,
    }
}

/// Whether a statement of a body begins here.
pub fn at_body_statement(tokens: &[Token]) -> bool
    ensures { result ≡ at sorts body_sorts tokens.now }
{
    match tokens {
        [token, ..] => match &token.kind {
            TokenKind::Word(Word::Assign | Word::Ignore) => true,
            kind => begins_common(kind),
        },
        [] => false,
    }
}

/// Whether an expression begins here.
pub fn at_expr(tokens: &[Token]) -> bool
    ensures { result ≡ at sorts (starts expr) tokens.now }
{
    match tokens {
        [token, ..] => begins_expr(&token.kind),
        [] => false,
    }
}

/// Whether the name of an apply rule begins here: an expression that doesn't begin with `{`.
pub fn at_apply_name(tokens: &[Token]) -> bool
    ensures { result ≡ at sorts (outside (sign_sort signs.OpenBrace ∷ []) (starts expr)) tokens.now }
{
    match tokens {
        [token, ..] => match &token.kind {
            TokenKind::Sign(Sign::OpenBrace) => false,
            kind => begins_expr(kind),
        },
        [] => false,
    }
}

/// Whether the definition of a function begins here: `function` is else that of an expression.
pub fn at_define(tokens: &[Token]) -> bool
    ensures { result ≡ begins_define tokens.now }
{
    at_word(Word::Function, tokens) && at_ident(after_first(tokens))
}

/// Whether a function with "=>" begins here: `( )`, `( IDENT ,` or `( IDENT ) =>`.
pub fn begins_lambda(tokens: &[Token]) -> bool
    ensures { result ≡ begins_plain tokens.now }
{
    if !at_sign(Sign::OpenParen, tokens) {
        return false;
    }
    let inner = after_first(tokens);
    if at_sign(Sign::CloseParen, inner) {
        return true;
    }
    if !at_ident(inner) {
        return false;
    }
    let behind = after_first(inner);
    at_sign(Sign::Comma, behind)
        || at_sign(Sign::CloseParen, behind) && at_sign(Sign::Arrow, after_first(behind))
}

/// Whether a member, an index or arguments begin here.
pub fn at_tail(tokens: &[Token]) -> bool
    ensures { result ≡ at sorts tail_sorts tokens.now }
{
    at_sign(Sign::Dot, tokens)
        || at_sign(Sign::OpenBracket, tokens)
        || at_sign(Sign::OpenParen, tokens)
}

/// Whether the key of a dictionary's entry begins here.
pub fn at_key(tokens: &[Token]) -> bool
    ensures { result ≡ at sorts (ident_sort ∷ string_sort ∷ []) tokens.now }
{
    matches!(
        tokens,
        [
            Token {
                kind: TokenKind::Ident(_) | TokenKind::Str(_),
                ..
            },
            ..
        ]
    )
}

/// Whether a newline or `;` stands here.
pub fn at_separator(tokens: &[Token]) -> bool
    ensures { result ≡ at sorts sep tokens.now }
{
    matches!(
        tokens,
        [
            Token {
                kind: TokenKind::NewLine | TokenKind::Sign(Sign::Semicolon),
                ..
            },
            ..
        ]
    )
}

/// Whether a newline, `;` or `,` stands here.
pub fn at_body_separator(tokens: &[Token]) -> bool
    ensures { result ≡ at sorts bsep tokens.now }
{
    matches!(
        tokens,
        [
            Token {
                kind: TokenKind::NewLine | TokenKind::Sign(Sign::Semicolon | Sign::Comma),
                ..
            },
            ..
        ]
    )
}

/// Whether a statement of a block begins with a token of this kind.
fn begins_statement(kind: &TokenKind) -> bool
    ensures { result ≡ among (kind_sort kind.now) statement_sorts }
{
    match kind {
        TokenKind::Word(Word::Object | Word::Template | Word::Apply | Word::Const) => true,
        _ => begins_common(kind),
    }
}

/// Whether a statement that may stand in blocks and bodies begins with a token of this kind.
fn begins_common(kind: &TokenKind) -> bool
    ensures { result ≡ among (kind_sort kind.now) common_sorts }
{
    match kind {
        TokenKind::Word(
            Word::Var
            | Word::Import
            | Word::If
            | Word::While
            | Word::For
            | Word::Return
            | Word::Break
            | Word::Continue
            | Word::Throw
            | Word::Function,
        ) => true,
        _ => begins_expr(kind),
    }
}

/// Whether an expression begins with a token of this kind.
fn begins_expr(kind: &TokenKind) -> bool
    ensures { result ≡ among (kind_sort kind.now) (starts expr) }
{
    match kind {
        TokenKind::Word(word) => matches!(
            word,
            Word::True | Word::False | Word::Null | Word::This | Word::Globals | Word::Function
        ),
        TokenKind::Sign(sign) => matches!(
            sign,
            Sign::OpenParen
                | Sign::OpenBracket
                | Sign::OpenBrace
                | Sign::Plus
                | Sign::Minus
                | Sign::Not
                | Sign::Tilde
        ),
        TokenKind::Ident(_) | TokenKind::Number(_) | TokenKind::Str(_) => true,
        TokenKind::NewLine | TokenKind::End => false,
    }
}
