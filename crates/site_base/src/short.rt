// Short texts.
ghost use Rattle.std.specs.Prelude.{◌≡◌, ◌≤◌, [], length, IfSome, IsSome};

use std::marker::Model;
use std::str;

/// How many bytes a short text has at most. With them a text takes as much room as one that has a pointer.
const ROOM: usize = 14;

/// A text whose bytes lie in the value itself. Clauses see it as the list of its bytes.
#[derive(Debug, Drop)]
pub(crate) struct Short {
    len: u8,
    bytes: [u8; ROOM],
}

impl Model for Short {
    ghost use Rattle.std.specs.Prelude.{◌≤◌, List, ℕ, take};
    ghost use Rattle.std.specs.Str.{IsUtf8};

    ghost Value = { List ℕ };

    ghost view = { λ s. take s.len s.bytes };

    ghost invariant = { λ s. (s.len ≤ 14) × ∥ IsUtf8 (take s.len s.bytes) ∥₁ };
}

impl Short {
    /// The empty text.
    pub(crate) fn new() -> Short
        ensures { result ≡ [] }
    {
        Short {
            len: 0,
            bytes: [0; ROOM],
        }
    }

    /// A short text with these bytes; `None` for a text that is longer.
    pub(crate) fn of(text: &str) -> Option<Short>
        ensures { IfSome result (λ s. s ≡ text.now) }
    {
        if text.len() > ROOM {
            return None;
        }
        let mut bytes = [0; ROOM];
        bytes[..text.len()].copy_from_slice(text.as_bytes());
        Some(Short {
            len: text.len() as u8,
            bytes,
        })
    }

    /// An equal text.
    pub(crate) fn copied(&self) -> Short
        ensures { result ≡ self.now }
    {
        Short {
            len: self.len,
            bytes: self.bytes,
        }
    }

    pub(crate) fn as_str(&self) -> &str
        ensures { result.now ≡ self.now }
    {
        unsafe { str::from_utf8_unchecked(&self.bytes[..self.len as usize]) }
    }
}
