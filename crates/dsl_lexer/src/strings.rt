// Strings.
ghost use Rattle.std.specs.Prelude.{◌≡◌, ◌+◌, ◌<◌, ◌≤◌, length, IfOk};
ghost use Rattle.std.specs.List.{prefix_len};
ghost use Rattle.dsl_lexer.specs.Letters.{follows};
ghost use Rattle.dsl_lexer.specs.Tokens.{is_plain as plain};
ghost use Rattle.dsl_lexer.specs.Strings.{body_of, is_quote};
ghost use Rattle.dsl_lexer.specs.Steps.{string_step, text_step};

use crate::TokenKind;
use crate::interner::Interner;
use crate::stepping::Step;
use crate::unit::{Unit, read_unit};
use site_base::{OutOfMemory, Text};
use std::alloc::Global;

/// A string behind its opening quote. One without escapes is copied as it stands.
pub(crate) fn read_string(
    alloc: Global,
    interner: &mut Interner,
    bytes: &[u8],
) -> Result<Step, OutOfMemory>
    ensures { IfOk result (λ s. s ≡ string_step (body_of bytes.now)) }
{
    let len = plain_len(bytes);
    let (text, rest) = bytes.split_at(len);
    if !at_quote(rest) {
        return read_units(alloc, bytes);
    }
    copied_text(interner, 2 + len, text)
}

/// How many bytes at the front of a text stand for themselves inside a string.
fn plain_len(text: &[u8]) -> usize
    ensures value { result ≡ prefix_len plain text.now }
    ensures within { result ≤ length text.now }
{
    text.iter().take_while(|b| is_plain(**b)).count()
}

/// Whether a byte stands for itself inside a string.
fn is_plain(byte: u8) -> bool
    ensures { result ≡ plain byte }
{
    byte != b'\n' && byte != b'"' && byte != b'\\'
}

/// Whether a quote stands here.
fn at_quote(text: &[u8]) -> bool
    ensures { result ≡ follows is_quote text.now }
{
    match text {
        [byte, ..] => *byte == b'"',
        [] => false,
    }
}

/// The same, character by character.
fn read_units(alloc: Global, bytes: &[u8]) -> Result<Step, OutOfMemory>
    ensures { IfOk result (λ s. s ≡ string_step (body_of bytes.now)) }
{
    let mut value = Vec::new(alloc);
    let mut rest = bytes;
    while !rest.is_empty() {
        match read_unit(rest) {
            Unit::Byte(byte, len) => {
                value.push(byte)?;
                rest = rest.split_at(len).1;
            }
            Unit::Quote => {
                let len = bytes.len() - rest.len();
                return made_text(alloc, 2 + len, value);
            }
            Unit::Bad => return Ok(Step::Fault),
        }
    }
    Ok(Step::Fault)
}

/// A string of so many bytes that stands for this text.
pub(crate) fn copied_text(
    interner: &mut Interner,
    len: usize,
    text: &[u8],
) -> Result<Step, OutOfMemory>
    ensures { IfOk result (λ s. s ≡ text_step len text.now) }
{
    let Ok(text) = str::from_utf8(text) else {
        return Ok(Step::Fault);
    };
    let text = interner.string_of(text)?;
    Ok(Step::Taken(len, TokenKind::Str(text)))
}

/// A string of so many bytes that stands for a text put together from these, which aren't copied.
fn made_text(alloc: Global, len: usize, bytes: Vec<u8>) -> Result<Step, OutOfMemory>
    ensures { IfOk result (λ s. s ≡ text_step len bytes.items) }
{
    let Ok(string) = String::from_utf8(bytes) else {
        return Ok(Step::Fault);
    };
    let text = Text::of_string(alloc, string)?;
    Ok(Step::Taken(len, TokenKind::Str(text)))
}
