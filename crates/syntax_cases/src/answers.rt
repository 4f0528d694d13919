// What the calls answer, as texts.
ghost use Rattle.std.specs.Prelude.{IfOk, IfSome};
ghost use Rattle.dsl_lexer.specs.Lists.{IsWhole};

use case_rows::push_marked;
use dsl_depth::too_deep;
use dsl_lexer::{LexError, Token, TokenKind, lex};
use dsl_parser::{ParseError, parse};
use dsl_syntax::{Expr, ExprKind, File, Stmt, StmtKind};
use dsl_tree::print;
use site_base::{OutOfMemory, Place, Row, Text, push_quoted};
use std::alloc::Global;

/// The tokens of a text, or none after the answer that tells why.
fn tokens_of(alloc: Global, out: &mut Text, bytes: &[u8]) -> Result<Option<Row<Token>>, OutOfMemory>
    ensures { IfOk result (λ o. IfSome o IsWhole) }
{
    if bytes.len() >= 1_000_000 {
        out.push_str("too long a row")?;
        return Ok(None);
    }
    match lex(alloc, bytes, 7) {
        Ok(tokens) => Ok(Some(tokens)),
        Err(LexError::Fault(fault)) => {
            out.push_str("no token at ")?;
            push_at(out, fault.place)?;
            Ok(None)
        }
        Err(LexError::OutOfMemory) => Err(OutOfMemory),
    }
}

/// The tree of a text, or none after the answer that tells why.
fn tree_of(alloc: Global, out: &mut Text, bytes: &[u8]) -> Result<Option<File>, OutOfMemory> {
    let Some(tokens) = tokens_of(alloc, out, bytes)? else {
        return Ok(None);
    };
    match parse(alloc, tokens.as_slice()) {
        Ok(file) => Ok(Some(file)),
        Err(ParseError::SyntaxFault { place }) => {
            out.push_str("fault at ")?;
            push_at(out, place)?;
            Ok(None)
        }
        Err(ParseError::TooDeep { place }) => {
            out.push_str("too deep at ")?;
            push_at(out, place)?;
            Ok(None)
        }
        Err(ParseError::OutOfMemory) => Err(OutOfMemory),
    }
}

fn push_at(out: &mut Text, place: Place) -> Result<(), OutOfMemory> {
    if place.file != 7 {
        out.push_str("another file, ")?;
    }
    out.push_decimal(u64::from(place.line))?;
    out.push(':')?;
    out.push_decimal(u64::from(place.col))
}

fn push_kind(out: &mut Text, kind: &TokenKind) -> Result<(), OutOfMemory> {
    match kind {
        TokenKind::Word(word) => {
            out.push_str("word ")?;
            out.push_str(word.spelling())
        }
        TokenKind::Ident(name) => {
            out.push_str("name ")?;
            out.push_str(name.as_str())
        }
        TokenKind::Number(number) => {
            out.push_str("number ")?;
            number.push_to(out)
        }
        TokenKind::Str(text) => push_quoted(out, text.as_str()),
        TokenKind::Sign(sign) => {
            out.push_str("sign ")?;
            out.push_str(sign.spelling())
        }
        TokenKind::NewLine => out.push_str("newline"),
        TokenKind::End => out.push_str("end"),
    }
}

/// Adds the tokens of a text, each with its place.
pub(crate) fn push_tokens(alloc: Global, out: &mut Text, bytes: &[u8]) -> Result<(), OutOfMemory> {
    let Some(tokens) = tokens_of(alloc, out, bytes)? else {
        return Ok(());
    };
    for (index, token) in tokens.as_slice().iter().enumerate() {
        if index > 0 {
            out.push_str(" | ")?;
        }
        push_at(out, token.place)?;
        out.push(' ')?;
        push_kind(out, &token.kind)?;
    }
    Ok(())
}

/// Adds the print of a text's tree, and that of the print's tree where it differs.
pub(crate) fn push_print(alloc: Global, out: &mut Text, bytes: &[u8]) -> Result<(), OutOfMemory> {
    let Some(file) = tree_of(alloc, out, bytes)? else {
        return Ok(());
    };
    let once = print(alloc, &file)?;
    push_marked(out, once.as_str())?;
    if let Some(file) = tree_of(alloc, out, once.as_bytes())? {
        let again = print(alloc, &file)?;
        if again != once {
            out.push_str(" and then ")?;
            push_marked(out, again.as_str())?;
        }
    }
    Ok(())
}

/// Adds the number of statements.
pub(crate) fn push_count(alloc: Global, out: &mut Text, bytes: &[u8]) -> Result<(), OutOfMemory> {
    match tree_of(alloc, out, bytes)? {
        Some(file) => out.push_decimal(file.statements.len() as u64),
        None => Ok(()),
    }
}

/// Where an expression, the right operand of one, or the name of an inclusion stands.
fn inner_place(kind: &StmtKind) -> Option<Place> {
    match kind {
        StmtKind::Eval {
            expr: Expr {
                kind: ExprKind::Binary(_, _, right),
                ..
            },
        } => Some(right.place),
        StmtKind::Eval { expr } => Some(expr.place),
        StmtKind::Include { at, .. }
        | StmtKind::IncludeLib { at, .. }
        | StmtKind::IncludeAll { at, .. } => Some(*at),
        _ => None,
    }
}

/// Adds where the first statement stands, and what is in it.
pub(crate) fn push_place(alloc: Global, out: &mut Text, bytes: &[u8]) -> Result<(), OutOfMemory> {
    let Some(file) = tree_of(alloc, out, bytes)? else {
        return Ok(());
    };
    match file.statements.as_slice() {
        [Stmt { place, kind }, ..] => {
            push_at(out, *place)?;
            out.push_str(" and ")?;
            match inner_place(kind) {
                Some(inner) => push_at(out, inner),
                None => out.push_str("nothing"),
            }
        }
        [] => out.push_str("no statement"),
    }
}

/// Adds the index of the first token that stands too deep.
pub(crate) fn push_deep(alloc: Global, out: &mut Text, bytes: &[u8]) -> Result<(), OutOfMemory> {
    let Some(tokens) = tokens_of(alloc, out, bytes)? else {
        return Ok(());
    };
    match too_deep(alloc, tokens.as_slice())? {
        Some(index) => {
            out.push_str("token ")?;
            out.push_decimal(index as u64)
        }
        None => out.push_str("none"),
    }
}
