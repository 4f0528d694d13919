// The steps over a text.
ghost use Rattle.std.specs.Prelude.{◌≡◌, ◌<◌, ◌≤◌, ◌+◌, IfOk, length, codes};
ghost use Rattle.std.specs.Str.{IsAscii};
ghost use Rattle.dsl_lexer.specs.Steps.{step_at, newline_step, name_at, number_at, mark_at, comment_step, find_end, long_step};

use crate::TokenKind;
use crate::interner::Interner;
use crate::letters::{is_blank, is_name_start};
use crate::mark::Mark;
use crate::marks::read_mark;
use crate::spans::{end_len, line_len, name_len, number_len};
use crate::strings::{copied_text, read_string};
use crate::words::read_word;
use site_base::{Num, OutOfMemory};
use std::alloc::Global;

/// What a text begins with, and how many bytes of it.
#[derive(Drop)]
pub(crate) enum Step {
    /// A blank, a comment, or a newline that is no token.
    Passed(usize),
    /// A token.
    Taken(usize, TokenKind),
    /// Nothing of the language.
    Fault,
}

/// What a text begins with, where newlines are tokens or are passed over.
#[tactic(auto, unfolding(crate::specs::Steps::step_at))]
pub(crate) fn next_step(
    alloc: Global,
    interner: &mut Interner,
    keeps_newlines: bool,
    bytes: &[u8],
) -> Result<Step, OutOfMemory>
    ensures { IfOk result (λ s. s ≡ step_at keeps_newlines bytes.now) }
{
    let [first, ..] = bytes else {
        return Ok(Step::Fault);
    };
    if is_blank(*first) {
        return Ok(Step::Passed(1));
    }
    if *first == b'\n' {
        return Ok(newline(keeps_newlines));
    }
    if is_name_start(*first) {
        return name(interner, bytes);
    }
    if first.is_ascii_digit() {
        return Ok(number(bytes));
    }
    marked(alloc, interner, bytes)
}

fn newline(is_token: bool) -> Step
    ensures { result ≡ newline_step is_token }
{
    if is_token {
        Step::Taken(1, TokenKind::NewLine)
    } else {
        Step::Passed(1)
    }
}

/// A reserved word or an identifier.
#[tactic(auto, unfolding(crate::specs::Steps::name_at))]
fn name(interner: &mut Interner, bytes: &[u8]) -> Result<Step, OutOfMemory>
    ensures { IfOk result (λ s. s ≡ name_at bytes.now) }
{
    let len = name_len(bytes);
    let (name, _) = bytes.split_at(len);
    if let Some(word) = read_word(name) {
        return Ok(Step::Taken(len, TokenKind::Word(word)));
    }
    let text = interner.text_of(name)?;
    Ok(Step::Taken(len, TokenKind::Ident(text)))
}

/// A number with its unit.
#[tactic(auto, unfolding(crate::specs::Steps::number_at))]
fn number(bytes: &[u8]) -> Step
    ensures { result ≡ number_at bytes.now }
{
    let len = number_len(bytes);
    let (text, _) = bytes.split_at(len);
    match Num::read(ascii_text(text)) {
        Some(number) => Step::Taken(len, TokenKind::Number(number)),
        None => Step::Fault,
    }
}

/// Bytes below 128 as a text.
pub(crate) fn ascii_text(bytes: &[u8]) -> &str
    requires { IsAscii bytes.now }
    ensures { result.now ≡ bytes.now }
{
    match str::from_utf8(bytes) {
        Ok(text) => text,
        Err(_) => unreachable!(),
    }
}

/// A sign, a string or a comment.
#[tactic(auto, unfolding(crate::specs::Steps::mark_at))]
fn marked(alloc: Global, interner: &mut Interner, bytes: &[u8]) -> Result<Step, OutOfMemory>
    requires { 0 < length bytes.now }
    ensures { IfOk result (λ s. s ≡ mark_at bytes.now) }
{
    match read_mark(bytes) {
        None => Ok(Step::Fault),
        Some(Mark::Sign(sign)) => Ok(Step::Taken(sign.spelling().len(), TokenKind::Sign(sign))),
        Some(Mark::Hash | Mark::DoubleSlash) => Ok(Step::Passed(line_len(bytes))),
        Some(Mark::BlockComment) => Ok(block_comment(bytes.split_at(2).1)),
        Some(Mark::LongString) => long_string(interner, bytes.split_at(3).1),
        Some(Mark::Quote) => read_string(alloc, interner, bytes.split_at(1).1),
    }
}

/// A comment behind its `/*`.
fn block_comment(bytes: &[u8]) -> Step
    ensures { result ≡ comment_step (find_end (codes "*/") bytes.now) }
{
    match end_len(b"*/", bytes) {
        Some(len) => Step::Passed(4 + len),
        None => Step::Fault,
    }
}

/// A string behind its `{{{`.
fn long_string(interner: &mut Interner, bytes: &[u8]) -> Result<Step, OutOfMemory>
    ensures { IfOk result (λ s. s ≡ long_step bytes.now (find_end (codes "}}}") bytes.now)) }
{
    match end_len(b"}}}", bytes) {
        Some(len) => copied_text(interner, 6 + len, bytes.split_at(len).0),
        None => Ok(Step::Fault),
    }
}
