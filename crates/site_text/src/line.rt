// Lines that are being built.
ghost use Rattle.std.specs.Prelude.{◌≡◌, ◌<◌, ◌++◌, [], ◌∷◌, IfOk, OnOk, encode_utf8};
ghost use Rattle.std.specs.Fmt.{decimal};
ghost use Rattle.std.specs.List.{list_all};
ghost use Rattle.site_base.specs.Quoted.{quoted};
ghost use Rattle.site_text.specs.Lines.{stands_as_it_is};

use site_base::{OutOfMemory, Text, quote};
use std::alloc::Global;
use std::fmt::Write;
use std::marker::Model;

/// So many bytes most lines have at most.
const ROOM: usize = 120;

/// A line that is being built, which has room for most lines from the start. Clauses see it as the list of its bytes.
#[derive(Drop)]
pub struct Line {
    alloc: Global,
    string: String,
}

impl Model for Line {
    ghost use Rattle.std.specs.Prelude.{List, ℕ, string_bytes};

    ghost Value = { List ℕ };

    ghost view = { λ l. string_bytes l.string };
}

impl Line {
    /// The empty line.
    ///
    /// # Errors
    ///
    /// `OutOfMemory` if there is none for its room.
    pub fn new(alloc: Global) -> Result<Line, OutOfMemory>
        ensures { IfOk result (λ l. l ≡ []) }
    {
        Ok(Line {
            alloc,
            string: String::with_capacity(alloc, ROOM)?,
        })
    }

    /// The bytes as a text, which aren't copied.
    ///
    /// # Errors
    ///
    /// `OutOfMemory` if there is none for the text.
    pub fn into_text(self) -> Result<Text, OutOfMemory>
        ensures { IfOk result (λ t. t ≡ self) }
    {
        Text::of_string(self.alloc, self.string)
    }

    pub fn as_str(&self) -> &str
        ensures { result.now ≡ self.now }
    {
        self.string.as_str()
    }

    /// Adds a character at the end.
    ///
    /// # Errors
    ///
    /// `OutOfMemory` if there is none for it.
    pub fn push(&mut self, c: char) -> Result<(), OutOfMemory>
        ensures ok { OnOk result (self.new ≡ self.old ++ encode_utf8 c) }
        ensures ascii { c < 128 → encode_utf8 c ≡ c ∷ [] }
    {
        self.string.push(c)?;
        Ok(())
    }

    /// Adds a text at the end.
    ///
    /// # Errors
    ///
    /// `OutOfMemory` if there is none for it.
    pub fn push_str(&mut self, more: &str) -> Result<(), OutOfMemory>
        ensures { OnOk result (self.new ≡ self.old ++ more.now) }
    {
        self.string.push_str(more)?;
        Ok(())
    }

    /// Adds a whole number in decimal digits at the end.
    ///
    /// # Errors
    ///
    /// `OutOfMemory` if there is none for them; some of them may stand there then.
    #[tactic(auto, using(std::proofs::lemmas::Fmt::decimal_digit))]
    pub fn push_decimal(&mut self, number: u64) -> Result<(), OutOfMemory>
        ensures { OnOk result (self.new ≡ self.old ++ decimal number) }
    {
        if number < 10 {
            return self.push(char::from(b'0' + number as u8));
        }
        write!(&mut self.string, "{number}")?;
        Ok(())
    }

    /// Adds a text at the end as [`site_base::quote`] gives it.
    ///
    /// # Errors
    ///
    /// `OutOfMemory` if there is none for it; the front of it may stand there then.
    #[tactic(auto, using(crate::proofs::Lines::quoted_as_it_is))]
    pub fn push_quoted(&mut self, text: &str) -> Result<(), OutOfMemory>
        ensures { OnOk result (self.new ≡ self.old ++ quoted text.now) }
    {
        if all_stand(text) {
            self.push_between_quotes(text)
        } else {
            let text = quote(self.alloc, text)?;
            self.push_str(text.as_str())
        }
    }

    /// Adds a text as it is, between quotes.
    fn push_between_quotes(&mut self, text: &str) -> Result<(), OutOfMemory>
        ensures { OnOk result (self.new ≡ self.old ++ (34 ∷ text.now ++ 34 ∷ [])) }
    {
        self.push('"')?;
        self.push_str(text)?;
        self.push('"')
    }
}

/// Whether each byte of a text stands for itself between quotes.
fn all_stand(text: &str) -> bool
    ensures { result ≡ list_all stands_as_it_is text.now }
{
    text.as_bytes().iter().all(|byte| stands(*byte))
}

/// Whether a byte stands for itself between quotes.
pub(crate) fn stands(byte: u8) -> bool
    ensures { result ≡ stands_as_it_is byte }
{
    byte >= 32 && byte != b'"' && byte != b'\\' && byte != 127
}
