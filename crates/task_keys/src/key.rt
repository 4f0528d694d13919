// A key that is written.
ghost use Rattle.std.specs.Prelude.{◌≡◌, ◌++◌, [], ◌∷◌, ◌<◌, ◌^◌, OnOk};
ghost use Rattle.task_keys.specs.Keys.{boolean_key, low_bytes, maybe_text_key, number_key, text_key, texts_key, whole_key};

use site_base::{Num, OutOfMemory, Text};
use std::alloc::Global;
use std::marker::Model;

/// A key, which grows at its end. Clauses see it as its bytes.
#[derive(Drop)]
pub struct Key {
    bytes: Vec<u8>,
}

impl Model for Key {
    ghost use Rattle.std.specs.Prelude.{List, ℕ};

    ghost Value = { List ℕ };

    ghost view = { λ k. k.bytes.items };
}

impl Key {
    /// The empty key, which takes no memory.
    pub fn new(alloc: Global) -> Key
        ensures { result ≡ [] }
    {
        Key {
            bytes: Vec::new(alloc),
        }
    }

    pub fn as_bytes(&self) -> &[u8]
        ensures { result.now ≡ self.now }
    {
        &self.bytes
    }

    /// Takes all bytes away and keeps their room, so that a next key is written into it.
    pub fn clear(&mut self)
        ensures { self.new ≡ [] }
    {
        self.bytes.clear();
    }

    /// A byte by itself, as one that says which of several things follows.
    pub fn push(&mut self, byte: u8) -> Result<(), OutOfMemory>
        ensures { OnOk result (self.new ≡ self.old ++ byte ∷ []) }
    {
        self.bytes.push(byte)?;
        Ok(())
    }

    pub fn push_boolean(&mut self, value: bool) -> Result<(), OutOfMemory>
        ensures { OnOk result (self.new ≡ self.old ++ boolean_key value) }
    {
        self.push(if value { 1 } else { 0 })
    }

    /// One byte for a number below 255, and nine for any other.
    pub fn push_number(&mut self, number: u64) -> Result<(), OutOfMemory>
        ensures { OnOk result (self.new ≡ self.old ++ number_key number) }
    {
        if number < 255 {
            return self.push(number as u8);
        }
        self.push(255)?;
        self.push_low_bytes(number)
    }

    /// A number by its eight bytes, the lowest first.
    fn push_low_bytes(&mut self, number: u64) -> Result<(), OutOfMemory>
        ensures { OnOk result (self.new ≡ self.old ++ low_bytes 7 number) }
    {
        let mut rest = number;
        let mut left: u8 = 7;
        while left > 0 {
            self.push((rest % 256) as u8)?;
            rest /= 256;
            left -= 1;
        }
        self.push(rest as u8)
    }

    /// The bytes of another key.
    pub fn append(&mut self, other: &Key) -> Result<(), OutOfMemory>
        ensures { OnOk result (self.new ≡ self.old ++ other.now) }
    {
        self.bytes.extend_from_slice(&other.bytes)?;
        Ok(())
    }

    pub(crate) fn push_whole(&mut self, number: Num) -> Result<(), OutOfMemory>
        ensures { OnOk result (self.new ≡ self.old ++ whole_key number) }
    {
        let thousandths = number.thousandths();
        if thousandths >= 0 {
            self.push(0)?;
            self.push_number(thousandths as u64)
        } else {
            self.push(1)?;
            self.push_number((-1 - thousandths) as u64)
        }
    }

    /// A text by its length and its bytes.
    pub fn push_text(&mut self, text: &Text) -> Result<(), OutOfMemory>
        ensures { OnOk result (self.new ≡ self.old ++ text_key text.now) }
    {
        self.push_number(text.len() as u64)?;
        self.bytes.extend_from_slice(text.as_bytes())?;
        Ok(())
    }

    pub(crate) fn push_texts(&mut self, texts: &[Text]) -> Result<(), OutOfMemory>
        ensures { OnOk result (self.new ≡ self.old ++ texts_key texts.now) }
    {
        for text in texts {
            self.push(1)?;
            self.push_text(text)?;
        }
        self.push(0)
    }

    pub(crate) fn push_maybe_text(&mut self, text: &Option<Text>) -> Result<(), OutOfMemory>
        ensures { OnOk result (self.new ≡ self.old ++ maybe_text_key text.now) }
    {
        match text {
            None => self.push(0),
            Some(text) => {
                self.push(1)?;
                self.push_text(text)
            }
        }
    }
}
