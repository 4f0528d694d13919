// Lines of bytes that come piece by piece.
ghost use Rattle.std.specs.Prelude.{◌≡◌, ◌==◌, [], length, OnOk};
ghost use Rattle.live_world.specs.Lines.{read_on, read_byte, at_end, ReadsPieces, ReadsLines};

use crate::kept::Kept;
use site_base::{Blob, OutOfMemory, Row};
use std::alloc::Global;
use std::marker::Model;
use std::mem;

/// The lines of what comes piece by piece: those that ended and were not taken yet, and the front of the one that goes on.
#[derive(Drop)]
pub struct Lines {
    alloc: Global,
    whole: Row<Blob>,
    front: Kept,
}

impl Model for Lines {
    ghost use Rattle.live_world.specs.Lines.{Read};

    ghost Value = { Read };

    ghost view = { λ l. record { whole = l.whole; front = l.front } };
}

impl Lines {
    pub fn new(alloc: Global) -> Lines
        ensures { result ≡ record { whole = []; front = [] } }
    {
        Lines {
            alloc,
            whole: Row::new(alloc),
            front: Kept::new(alloc),
        }
    }

    /// Whether no line has ended that was not taken.
    pub fn is_empty(&self) -> bool
        ensures { result ≡ (length self.now.whole == 0) }
    {
        self.whole.is_empty()
    }

    #[tactic(auto, unfolding(crate::specs::Lines::read_on))]
    /// Goes on by bytes. After want of memory it has gone on by some front of them.
    pub fn read_on(&mut self, bytes: &[u8]) -> Result<(), OutOfMemory>
        ensures { OnOk result (self.new ≡ read_on self.old bytes.now) }
    {
        for byte in bytes {
            self.read_byte(*byte)?;
        }
        Ok(())
    }

    #[tactic(auto, unfolding(crate::specs::Lines::read_byte))]
    fn read_byte(&mut self, byte: u8) -> Result<(), OutOfMemory>
        ensures { OnOk result (self.new ≡ read_byte self.old byte) }
    {
        if byte == b'\n' {
            let line = mem::replace(&mut self.front, Kept::new(self.alloc));
            self.whole.push(line.into_blob())
        } else {
            self.front.push(byte)
        }
    }

    /// Ends the last line, at the end of the input.
    pub fn end(&mut self) -> Result<(), OutOfMemory>
        ensures { OnOk result (self.new ≡ at_end self.old) }
    {
        if self.front.is_empty() {
            return Ok(());
        }
        self.read_byte(b'\n')
    }

    /// The lines that have ended since the last call.
    pub fn take(&mut self) -> Row<Blob>
        ensures taken { result ≡ self.old.whole }
        ensures left { self.new ≡ record { whole = []; front = self.old.front } }
    {
        mem::replace(&mut self.whole, Row::new(self.alloc))
    }
}

/// The law of what is read: the lines of an input, in whatever pieces it comes.
pub fn lines_are_read()
    ensures pieces { ReadsPieces }
    ensures lines { ReadsLines }
{}
