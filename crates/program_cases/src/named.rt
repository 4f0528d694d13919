// Texts that rows name.
use crate::words::cut;
use site_base::{Blob, OutOfMemory, Text};
use std::alloc::Global;

/// A text under a name.
#[derive(Drop)]
struct NamedText {
    name: Text,
    text: Blob,
}

/// The texts that were defined so far.
#[derive(Drop)]
pub(crate) struct Named {
    texts: Vec<NamedText>,
}

impl Named {
    pub(crate) fn new(alloc: Global) -> Named {
        Named {
            texts: Vec::new(alloc),
        }
    }

    /// Takes a line that defines a text, `text NAME = TEXT`, or adds a line to the last one, `| LINE`, and no other.
    pub(crate) fn take(&mut self, alloc: Global, line: &str) -> Result<(), OutOfMemory> {
        if let Some(definition) = line.strip_prefix("text ") {
            let defined = self.defined(alloc, definition)?;
            self.texts.push(defined)?;
        } else if let Some(more) = line.strip_prefix("| ") {
            self.add_line(alloc, more)?;
        }
        Ok(())
    }

    /// The text of the definition `NAME = TEXT`.
    fn defined(&self, alloc: Global, definition: &str) -> Result<NamedText, OutOfMemory> {
        let (name, text) = cut(definition, '=');
        let text = self.whole(alloc, text.trim_start())?;
        let name = Text::copy_of(alloc, name.trim_end())?;
        Ok(NamedText { name, text })
    }

    /// Adds a line to the text that was defined last.
    fn add_line(&mut self, alloc: Global, line: &str) -> Result<(), OutOfMemory> {
        let mut more = self.whole(alloc, line)?;
        more.push(b'\n')?;
        match self.texts.last_mut() {
            Some(last) => push_bytes(&mut last.text, more.as_slice()),
            None => Ok(()),
        }
    }

    /// What a text of the table stands for: `⟨NAME⟩` is the text of that name, `⟨3 ab⟩` is `ababab`, `⟨#ff⟩` is the byte of these
    /// hexadecimal digits, and `⏎`, `␍`, `␉` and `␣` are a newline, a carriage return, a tab and a space.
    pub(crate) fn whole(&self, alloc: Global, text: &str) -> Result<Blob, OutOfMemory> {
        let mut out = Blob::new(alloc);
        self.push_whole(&mut out, text)?;
        Ok(out)
    }

    /// Adds what a text of the table stands for.
    pub(crate) fn push_whole(&self, out: &mut Blob, text: &str) -> Result<(), OutOfMemory> {
        for piece in text.split('⟨') {
            self.push_piece(out, piece)?;
        }
        Ok(())
    }

    /// Adds what follows a `⟨`, or stands before the first.
    fn push_piece(&self, out: &mut Blob, piece: &str) -> Result<(), OutOfMemory> {
        match piece.split_once('⟩') {
            Some((part, tail)) => {
                self.push_part(out, part)?;
                push_characters(out, tail)
            }
            None => push_characters(out, piece),
        }
    }

    /// Adds what stands between `⟨` and `⟩`.
    fn push_part(&self, out: &mut Blob, part: &str) -> Result<(), OutOfMemory> {
        if let Some(digits) = part.strip_prefix('#') {
            return out.push(u8::from_str_radix(digits, 16).unwrap_or(0));
        }
        match part.split_once(' ') {
            Some((times, text)) => push_repeated(out, times.parse::<u32>().unwrap_or(0), text),
            None => push_bytes(out, self.text_of(part)),
        }
    }

    /// The text of this name.
    fn text_of(&self, name: &str) -> &[u8] {
        for named in &self.texts {
            if named.name.as_str() == name {
                return named.text.as_slice();
            }
        }
        b"no such text"
    }
}

fn push_repeated(out: &mut Blob, times: u32, text: &str) -> Result<(), OutOfMemory> {
    for _ in 0..times {
        push_characters(out, text)?;
    }
    Ok(())
}

fn push_characters(out: &mut Blob, text: &str) -> Result<(), OutOfMemory> {
    for c in text.chars() {
        push_character(out, c)?;
    }
    Ok(())
}

fn push_character(out: &mut Blob, c: char) -> Result<(), OutOfMemory> {
    match c {
        '⏎' => out.push(b'\n'),
        '␍' => out.push(b'\r'),
        '␉' => out.push(b'\t'),
        '␣' => out.push(b' '),
        c => push_bytes(out, c.encode_utf8(&mut [0; 4]).as_bytes()),
    }
}

pub(crate) fn push_bytes(out: &mut Blob, bytes: &[u8]) -> Result<(), OutOfMemory> {
    for byte in bytes {
        out.push(*byte)?;
    }
    Ok(())
}
