// Identifiers and strings that come again.
ghost use Rattle.std.specs.Prelude.{◌≡◌, IfOk, IfSome};
ghost use Rattle.std.specs.Str.{IsAscii};

use crate::stepping::ascii_text;
use site_base::{OutOfMemory, Text};
use std::alloc::Global;

/// How many texts are kept.
const SLOTS: u32 = 1024;

/// The texts of identifiers and strings that were read last, so that those that come again share them.
#[derive(Drop)]
pub(crate) struct Interner {
    alloc: Global,
    slots: Vec<Slot>,
}

/// A text, and how often it may still be shared. It is renewed from time to time, so that threads that
/// work on different parts of a tree seldom count at one pointer.
#[derive(Drop)]
struct Slot {
    text: Text,
    left: u8,
}

impl Interner {
    pub(crate) fn new(alloc: Global) -> Result<Interner, OutOfMemory> {
        let mut slots = Vec::with_capacity(alloc, SLOTS as usize)?;
        for _ in 0..SLOTS {
            slots.push(Slot {
                text: Text::new(alloc),
                left: 0,
            })?;
        }
        Ok(Interner { alloc, slots })
    }

    /// The text of an identifier.
    pub(crate) fn text_of(&mut self, name: &[u8]) -> Result<Text, OutOfMemory>
        requires { IsAscii name.now }
        ensures { IfOk result (λ t. t ≡ name.now) }
    {
        match self.shared(name)? {
            Some(text) => Ok(text),
            None => self.keep(ascii_text(name)),
        }
    }

    /// The text of a string.
    pub(crate) fn string_of(&mut self, string: &str) -> Result<Text, OutOfMemory>
        ensures { IfOk result (λ t. t ≡ string.now) }
    {
        match self.shared(string.as_bytes())? {
            Some(text) => Ok(text),
            None => self.keep(string),
        }
    }

    /// The text that is kept of these bytes, if there is one that may still be shared.
    fn shared(&mut self, bytes: &[u8]) -> Result<Option<Text>, OutOfMemory>
        ensures { IfOk result (λ o. IfSome o (λ t. t ≡ bytes.now)) }
    {
        if let Some(kept) = self.slots.get_mut(slot_of(bytes)) {
            if kept.left > 0 && kept.text.as_bytes() == bytes {
                kept.left -= 1;
                return Ok(Some(kept.text.clone()?));
            }
        }
        Ok(None)
    }

    /// A text of its own, which is kept from now on.
    fn keep(&mut self, text: &str) -> Result<Text, OutOfMemory>
        ensures { IfOk result (λ t. t ≡ text.now) }
    {
        let made = Text::copy_of(self.alloc, text)?;
        if let Some(kept) = self.slots.get_mut(slot_of(text.as_bytes())) {
            *kept = Slot {
                text: made.clone()?,
                left: u8::MAX,
            };
        }
        Ok(made)
    }
}

/// The slot of a text, which other texts may have too.
fn slot_of(bytes: &[u8]) -> usize {
    let mut hash = 0u32;
    for byte in bytes {
        hash = hash.wrapping_mul(31).wrapping_add(u32::from(*byte));
    }
    (hash % SLOTS) as usize
}
