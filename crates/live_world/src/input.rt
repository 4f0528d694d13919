// The lines of standard input.
ghost use Rattle.std.specs.Prelude.{◌≡◌, IsTrue, length};

use crate::lines::Lines;
use crate::ready::is_ready;
use site_base::{Blob, OutOfMemory, Row};
use site_edge::WorldError;
use std::alloc::Global;
use std::io::{ErrorKind, Read};
use std::thread;
use std::time::Duration;

/// So many bytes are read by one call.
const CHUNK: usize = 64 * 1024;

/// Once so many bytes came for a turn, no more are read for it: what is left waits for the next turn, and so does whoever
/// writes it.
const MOST_OF_A_TURN: usize = 4 * 1024 * 1024;

/// The descriptor of standard input.
const STANDARD_INPUT: i32 = 0;

/// Standard input, by its lines.
#[derive(Drop)]
pub struct InputLines {
    chunk: Vec<u8>,
    lines: Lines,
    /// How many bytes came for the next turn.
    count: usize,
    has_ended: bool,
}

impl InputLines {
    pub fn new(alloc: Global) -> Result<InputLines, OutOfMemory> {
        Ok(InputLines {
            chunk: vec![in alloc; 0; CHUNK]?,
            lines: Lines::new(alloc),
            count: 0,
            has_ended: false,
        })
    }

    pub fn has_ended(&self) -> bool
        ensures { result ≡ self.now.has_ended }
    {
        self.has_ended
    }

    /// Whether the input has ended, and each line of it was taken.
    pub fn is_over(&self) -> bool
        ensures ended { IsTrue result → IsTrue self.now.has_ended }
        ensures taken { IsTrue result → length self.now.lines.whole ≡ 0 }
    {
        self.has_ended && self.lines.is_empty()
    }

    /// Waits for input, so long at most, and reads what is there. `Failed` if it can't be waited for or read.
    pub fn wait(&mut self, rt: &HostRuntime, most: Duration) -> Result<(), WorldError> {
        let mut patience = most;
        for _ in 0..u64::MAX {
            if self.has_ended || self.count >= MOST_OF_A_TURN {
                thread::sleep(rt, patience);
                break;
            }
            let Ok(has_come) = is_ready(STANDARD_INPUT, patience) else {
                return Err(WorldError::Failed);
            };
            if !has_come {
                break;
            }
            self.read(rt)?;
            patience = Duration::ZERO;
        }
        Ok(())
    }

    /// Reads once.
    fn read(&mut self, rt: &HostRuntime) -> Result<(), WorldError> {
        match rt.reader().read(self.chunk.as_mut_slice()) {
            Ok(0) => {
                self.has_ended = true;
                self.lines.end()?;
            }
            Ok(count) => {
                self.count = self.count.saturating_add(count);
                self.lines.read_on(&self.chunk[..count])?;
            }
            Err(error) if error.kind() == ErrorKind::Interrupted => {}
            Err(_) => return Err(WorldError::Failed),
        }
        Ok(())
    }

    /// The lines for a turn.
    pub fn take(&mut self) -> Row<Blob> {
        self.count = 0;
        self.lines.take()
    }
}
