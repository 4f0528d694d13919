// The first bytes of what comes piece by piece, up to a whole character.
ghost use Rattle.std.specs.Prelude.{◌≡◌, ◌<◌, ◌++◌, ◌∷◌, [], ◌==◌, length, OnOk, OnErr};
ghost use Rattle.live_world.specs.Lines.{kept, cut, character_end, is_inside};

use site_base::{Blob, OutOfMemory};
use std::alloc::Global;
use std::marker::Model;

/// So many bytes of a line and of an output are kept at most.
pub const MOST_KEPT: usize = 65_536;

/// One more, which tells whether a character goes on.
const MOST_READ: usize = MOST_KEPT + 1;

/// The first 65,537 bytes of what comes piece by piece; what comes after them is thrown away. Clauses see it as these
/// bytes. What it is turned into has 65,536 at most, and no part of a character at its end.
#[derive(Drop)]
pub struct Kept {
    bytes: Vec<u8>,
}

impl Model for Kept {
    ghost use Rattle.std.specs.Prelude.{List, ℕ, ◌≤◌, vec_len};

    ghost Value = { List ℕ };

    ghost view = { λ k. k.bytes.items };

    ghost invariant = { λ k. vec_len k.bytes ≤ 65537 };
}

impl Kept {
    pub fn new(alloc: Global) -> Kept
        ensures { result ≡ [] }
    {
        Kept {
            bytes: Vec::new(alloc),
        }
    }

    pub fn is_empty(&self) -> bool
        ensures { result ≡ (length self.now == 0) }
    {
        self.bytes.is_empty()
    }

    #[tactic(auto, using(crate::proofs::Front::kept_all, crate::proofs::Front::kept_full))]
    pub fn push(&mut self, byte: u8) -> Result<(), OutOfMemory>
        ensures ok { OnOk result (self.new ≡ kept (self.old ++ byte ∷ [])) }
        ensures err { OnErr result (self.new ≡ self.old) }
    {
        if self.bytes.len() < MOST_READ {
            self.bytes.push(byte)?;
        }
        Ok(())
    }

    #[tactic(auto, using(crate::proofs::Front::kept_all, crate::proofs::Front::kept_more))]
    pub fn extend(&mut self, more: &[u8]) -> Result<(), OutOfMemory>
        ensures ok { OnOk result (self.new ≡ kept (self.old ++ more.now)) }
        ensures err { OnErr result (self.new ≡ self.old) }
    {
        let room = MOST_READ - self.bytes.len();
        if more.len() <= room {
            self.bytes.extend_from_slice(more)?;
        } else {
            self.bytes.extend_from_slice(&more[..room])?;
        }
        Ok(())
    }

    /// The bytes, without a character that would pass the 65,536th.
    #[tactic(auto, unfolding(crate::specs::Lines::cut))]
    pub fn into_blob(self) -> Blob
        ensures { result ≡ cut self }
    {
        let mut bytes = self.bytes;
        if bytes.len() > MOST_KEPT {
            let end = character_end(&bytes);
            bytes.truncate(end);
        }
        Blob::from(bytes)
    }
}

/// Where the last whole character of the first 65,536 bytes ends.
fn character_end(bytes: &[u8]) -> usize
    requires { 65536 < length bytes.now }
    ensures { result ≡ character_end bytes.now }
{
    if !is_inside(bytes[MOST_KEPT]) {
        MOST_KEPT
    } else if !is_inside(bytes[MOST_KEPT - 1]) {
        MOST_KEPT - 1
    } else if !is_inside(bytes[MOST_KEPT - 2]) {
        MOST_KEPT - 2
    } else {
        MOST_KEPT - 3
    }
}

/// Whether a character of UTF-8 goes on by this byte.
fn is_inside(byte: u8) -> bool
    ensures { result ≡ is_inside byte }
{
    byte / 64 == 2
}
