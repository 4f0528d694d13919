// Standard output.
ghost use Rattle.std.specs.Prelude.{◌≡◌, ◌≤◌, [], length, None, OnOk, IsErrOf};
ghost use Rattle.site_edge.specs.Told.{Rose};

use crate::{Sink, SinkFault};
use std::alloc::Global;
use std::io;
use std::io::Write;

/// So many bytes are kept back at most.
const MAX_KEPT: usize = 64 * 1024;

/// Standard output. What is put is kept back until it is flushed, or until it is more than 64 KiB, so
/// that many short lines are written by few calls. Nothing is told of what it holds.
///
/// What is kept back when the sink is dropped is lost, so whoever ends a run flushes.
#[derive(Drop)]
pub struct OutSink<R: Print + Drop> {
    rt: R,
    kept: Vec<u8>,
    faults: u64,
}

impl<R: Print + Drop> OutSink<R> {
    pub fn new(alloc: Global, rt: R) -> OutSink<R>
        ensures faults { ⟦<OutSink<R> as Sink>⟧.faults result ≡ 0 }
        ensures through { ⟦<OutSink<R> as Sink>⟧.kept_back result ≡ 0 }
    {
        OutSink {
            rt,
            kept: Vec::new(alloc),
            faults: 0,
        }
    }

    /// Writes what is kept back. After a fault it is gone.
    fn write_kept(&mut self) -> Result<(), SinkFault>
        ensures through { self.new.kept.items ≡ [] }
        ensures cause { IsErrOf result SinkFault.Failed → Rose self.old.faults self.new.faults }
        ensures counts { self.old.faults ≤ self.new.faults }
        ensures quiet { OnOk result (self.new.faults ≡ self.old.faults) }
    {
        if self.kept.is_empty() {
            return Ok(());
        }
        let written = io::writer(&self.rt).write_all(self.kept.as_slice());
        self.kept.clear();
        self.settle(written)
    }

    /// Counts a write that failed.
    fn settle(&mut self, written: io::Result<()>) -> Result<(), SinkFault>
        ensures kept { self.new.kept ≡ self.old.kept }
        ensures cause { IsErrOf result SinkFault.Failed → Rose self.old.faults self.new.faults }
        ensures counts { self.old.faults ≤ self.new.faults }
        ensures quiet { OnOk result (self.new.faults ≡ self.old.faults) }
    {
        match written {
            Ok(()) => Ok(()),
            Err(_) => {
                self.faults = self.faults.saturating_add(1);
                Err(SinkFault::Failed)
            }
        }
    }
}

impl<R: Print + Drop> Sink for OutSink<R> {
    ghost written = { λ _. None };

    ghost kept_back = { λ s. length s.kept.items };

    ghost faults = { λ s. s.faults };

    ghost calm = { λ _. ⊥ };

    fn put(&mut self, bytes: &[u8]) -> Result<(), SinkFault> {
        if bytes.len() > MAX_KEPT.saturating_sub(self.kept.len()) {
            self.write_kept()?;
        }
        if bytes.len() <= MAX_KEPT && self.kept.extend_from_slice(bytes).is_ok() {
            return Ok(());
        }
        self.write_kept()?;
        let written = io::writer(&self.rt).write_all(bytes);
        self.settle(written)
    }

    fn flush(&mut self) -> Result<(), SinkFault> {
        self.write_kept()
    }
}
