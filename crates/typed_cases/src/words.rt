// Words and numbers of answers.
use site_base::{OutOfMemory, Text};

/// Adds what stands between two parts of an answer, unless none stands there yet.
pub(crate) fn push_bar(out: &mut Text) -> Result<(), OutOfMemory> {
    if out.is_empty() {
        Ok(())
    } else {
        out.push_str(" | ")
    }
}

/// Adds a word where a flag holds.
pub(crate) fn push_flag(out: &mut Text, word: &str, holds: bool) -> Result<(), OutOfMemory> {
    if holds { out.push_str(word) } else { Ok(()) }
}

/// Adds a word and a number behind it.
pub(crate) fn push_number(out: &mut Text, word: &str, number: u64) -> Result<(), OutOfMemory> {
    out.push_str(word)?;
    out.push_decimal(number)
}

/// Adds a word and a number behind it, if there is one.
pub(crate) fn push_limit(
    out: &mut Text,
    word: &str,
    number: Option<u64>,
) -> Result<(), OutOfMemory> {
    match number {
        Some(number) => push_number(out, word, number),
        None => Ok(()),
    }
}

/// Adds a word and a place in a list behind it, if there is one.
pub(crate) fn push_place(
    out: &mut Text,
    word: &str,
    place: Option<u32>,
) -> Result<(), OutOfMemory> {
    match place {
        Some(place) => push_number(out, word, u64::from(place)),
        None => Ok(()),
    }
}
