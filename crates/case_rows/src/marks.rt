// The marks in rows: signs for characters that can't be seen or end a line, and repeated parts.
use site_base::{OutOfMemory, Row, Text};
use std::alloc::Global;

/// A row's text: `⏎`, `␍`, `␉` and `␣` are a newline, a carriage return, a tab and a space, `⟨3 ab⟩` is `ababab`, and
/// `⟨u 1b⟩` is the character of this number.
pub fn unmarked(alloc: Global, text: &str) -> Result<Text, OutOfMemory> {
    let mut out = Text::new(alloc);
    for piece in text.split('⟨') {
        match piece.split_once('⟩') {
            Some((mark, tail)) => {
                push_mark(&mut out, mark)?;
                push_characters(&mut out, tail)?;
            }
            None => push_characters(&mut out, piece)?,
        }
    }
    Ok(out)
}

fn push_mark(out: &mut Text, mark: &str) -> Result<(), OutOfMemory> {
    match mark.split_once(' ') {
        Some(("u", number)) => {
            let number = u32::from_str_radix(number, 16).unwrap_or(0);
            out.push(char::from_u32(number).unwrap_or(' '))
        }
        Some((times, part)) => {
            for _ in 0..times.parse::<u32>().unwrap_or(0) {
                push_characters(out, part)?;
            }
            Ok(())
        }
        None => Ok(()),
    }
}

fn push_characters(out: &mut Text, text: &str) -> Result<(), OutOfMemory> {
    for c in text.chars() {
        out.push(match c {
            '⏎' => '\n',
            '␍' => '\r',
            '␉' => '\t',
            '␣' => ' ',
            c => c,
        })?;
    }
    Ok(())
}

/// Adds a text with the sign `⏎` in the place of each newline.
pub fn push_marked(out: &mut Text, text: &str) -> Result<(), OutOfMemory> {
    for c in text.chars() {
        out.push(if c == '\n' { '⏎' } else { c })?;
    }
    Ok(())
}

/// The bytes that are written as pairs of hexadecimal digits with blanks between them.
pub fn bytes_of(alloc: Global, text: &str) -> Result<Row<u8>, OutOfMemory> {
    let mut bytes = Row::new(alloc);
    for pair in text.split_whitespace() {
        bytes.push(u8::from_str_radix(pair, 16).unwrap_or(0))?;
    }
    Ok(bytes)
}
