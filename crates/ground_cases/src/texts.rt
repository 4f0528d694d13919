// Texts, and lists of texts and bytes.
use crate::numbers::push_order;
use case_rows::unmarked;
use site_base::{Blob, OutOfMemory, Text, Texts, quote};
use std::alloc::Global;

/// Adds which of two texts comes first.
pub(crate) fn push_texts_order(
    alloc: Global,
    out: &mut Text,
    text: &str,
) -> Result<(), OutOfMemory> {
    let (left, right) = text.split_once(", ").unwrap_or((text, ""));
    let left = unmarked(alloc, left)?;
    let right = unmarked(alloc, right)?;
    push_order(out, left.cmp(&right))
}

/// Adds the text in quotes.
pub(crate) fn push_quote(alloc: Global, out: &mut Text, text: &str) -> Result<(), OutOfMemory> {
    let text = unmarked(alloc, text)?;
    let quoted = quote(alloc, text.as_str())?;
    out.push_str(quoted.as_str())
}

/// Adds a text that is built piece by piece, with its length and its first byte.
pub(crate) fn push_built(alloc: Global, out: &mut Text, text: &str) -> Result<(), OutOfMemory> {
    let mut built = Text::new(alloc);
    push_pieces(&mut built, text)?;
    push_measured(out, &built)
}

fn push_pieces(out: &mut Text, text: &str) -> Result<(), OutOfMemory> {
    for piece in text.split(' ') {
        push_piece(out, piece)?;
    }
    Ok(())
}

/// Adds a text, with its length and its first byte.
fn push_measured(out: &mut Text, built: &Text) -> Result<(), OutOfMemory> {
    out.push_str(built.as_str())?;
    out.push_str(" bytes ")?;
    out.push_decimal(built.len() as u64)?;
    out.push_str(" first ")?;
    out.push_decimal(built.as_bytes().first().copied().map_or(0, u64::from))
}

/// Adds a text that begins with a small letter, another character, or a number of two digits or more.
fn push_piece(out: &mut Text, piece: &str) -> Result<(), OutOfMemory> {
    let mut characters = piece.chars();
    match (characters.next(), characters.next()) {
        (Some('a'..='z'), _) => out.push_str(piece),
        (Some(character), None) => out.push(character),
        _ => out.push_decimal(piece.parse::<u64>().unwrap_or(0)),
    }
}

/// Adds what want of memory is called.
pub(crate) fn push_memory(alloc: Global, out: &mut Text) -> Result<(), OutOfMemory> {
    let told = format!(in alloc; "{OutOfMemory}")?;
    out.push_str(told.as_str())
}

/// Adds how long two lists of texts are, and which comes first.
pub(crate) fn push_lists_order(
    alloc: Global,
    out: &mut Text,
    text: &str,
) -> Result<(), OutOfMemory> {
    let (left, right) = text.split_once(", ").unwrap_or((text, ""));
    let left = texts_of(alloc, left)?;
    let right = texts_of(alloc, right)?;
    push_both(out, &left, &right)
}

fn push_both(out: &mut Text, left: &Texts, right: &Texts) -> Result<(), OutOfMemory> {
    out.push_decimal(left.len() as u64)?;
    out.push(' ')?;
    out.push_decimal(right.len() as u64)?;
    out.push(' ')?;
    push_order(out, left.cmp(right))
}

/// The texts between blanks; a `-` stands for no text.
fn texts_of(alloc: Global, text: &str) -> Result<Texts, OutOfMemory> {
    let mut texts = Texts::new(alloc);
    add_texts(alloc, &mut texts, text)?;
    Ok(texts)
}

fn add_texts(alloc: Global, texts: &mut Texts, text: &str) -> Result<(), OutOfMemory> {
    for item in text.split(' ') {
        if item != "-" {
            texts.push(Text::copy_of(alloc, item)?)?;
        }
    }
    Ok(())
}

/// Adds the bytes of these numbers, as a copy has them.
pub(crate) fn push_bytes(alloc: Global, out: &mut Text, text: &str) -> Result<(), OutOfMemory> {
    let mut bytes = Blob::new(alloc);
    add_bytes(&mut bytes, text)?;
    let copy = Blob::copy_of(alloc, bytes.as_slice())?;
    push_copy(out, copy.as_slice())
}

fn add_bytes(bytes: &mut Blob, text: &str) -> Result<(), OutOfMemory> {
    for number in text.split(' ') {
        bytes.push(number.parse::<u8>().unwrap_or(0))?;
    }
    Ok(())
}

fn push_copy(out: &mut Text, copy: &[u8]) -> Result<(), OutOfMemory> {
    out.push_decimal(copy.len() as u64)?;
    out.push_str(" bytes:")?;
    for byte in copy {
        out.push(' ')?;
        out.push_decimal(u64::from(*byte))?;
    }
    Ok(())
}
