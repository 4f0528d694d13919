// Literals and names.
ghost use Rattle.std.specs.Prelude.{◌≡◌, ◌<◌, IfOk};
ghost use Rattle.dsl_syntax.specs.Syntax.{expression};
ghost use Rattle.dsl_syntax.specs.SyntaxView.{expr_view, expr_kind_view};
ghost use Rattle.dsl_rules.specs.Alphabet.{among, at};
ghost use Rattle.dsl_rules.specs.Reading.{one_read};
ghost use Rattle.dsl_grammar.specs.Codes.{sorts, kind_sort, word_sort};
ghost use Rattle.dsl_next.specs.Gives.{Gives};
ghost use Rattle.dsl_grammar.specs.Grammar.{literal_sorts, literal_kind as literal_plain};

use dsl_lexer::{Token, TokenKind, Word};
use dsl_next::stop::Stop;
use dsl_syntax::{Expr, ExprKind};
use std::alloc::AllocError;

/// A literal, an identifier, `this` or `globals`.
pub fn literal<'a>(tokens: &'a [Token]) -> Result<(Expr, &'a [Token]), Stop<'a>>
    ensures { Gives expr_view result
        (one_read sorts literal_sorts (λ t. expression t.place (literal_plain t.kind)) tokens.now) }
{
    match tokens {
        [token, rest @ ..] if is_literal(&token.kind) => {
            let place = token.place;
            let kind = literal_kind(&token.kind)?;
            Ok((Expr { place, kind }, rest))
        }
        _ => Err(Stop::Fault(tokens)),
    }
}

/// Whether the next token is a literal, an identifier, `this` or `globals`.
pub fn at_literal(tokens: &[Token]) -> bool
    ensures { result ≡ at sorts literal_sorts tokens.now }
{
    match tokens {
        [token, ..] => is_literal(&token.kind),
        [] => false,
    }
}

/// Whether the token is a literal, an identifier, `this` or `globals`.
fn is_literal(kind: &TokenKind) -> bool
    ensures { result ≡ among (kind_sort kind.now) literal_sorts }
{
    match kind {
        TokenKind::Ident(_) | TokenKind::Number(_) | TokenKind::Str(_) => true,
        TokenKind::Word(word) => is_literal_word(*word),
        _ => false,
    }
}

/// Whether the word is a literal, `this` or `globals`.
fn is_literal_word(word: Word) -> bool
    ensures { result ≡ among (word_sort word) literal_sorts }
{
    match word {
        Word::True | Word::False | Word::Null | Word::This | Word::Globals => true,
        _ => false,
    }
}

/// What a token alone is as an expression; any that is no literal counts as `null`.
fn literal_kind(kind: &TokenKind) -> Result<ExprKind, AllocError>
    ensures { IfOk result (λ k. expr_kind_view k ≡ literal_plain kind.now) }
{
    Ok(match kind {
        TokenKind::Ident(name) => ExprKind::Name(name.clone()?),
        TokenKind::Number(number) => ExprKind::Number(*number),
        TokenKind::Str(text) => ExprKind::Str(text.clone()?),
        TokenKind::Word(Word::True) => ExprKind::Bool(true),
        TokenKind::Word(Word::False) => ExprKind::Bool(false),
        TokenKind::Word(Word::This) => ExprKind::This,
        TokenKind::Word(Word::Globals) => ExprKind::Globals,
        _ => ExprKind::Null,
    })
}
