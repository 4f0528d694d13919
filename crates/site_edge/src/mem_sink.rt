// A sink in memory.
ghost use Rattle.std.specs.Prelude.{◌≡◌, ◌≢◌, ◌≤◌, ◌+◌, [], length, IsErrOf, IsFalse, IsTrue, Some, Err, OnOk, OnErr};
ghost use Rattle.site_edge.specs.Fakes.{fresh, sink_failures, FailsAsListed, IsCalm};
ghost use Rattle.site_edge.specs.Lists.{Adds, AddsPart};
ghost use Rattle.site_edge.specs.Told.{Rose};

use crate::mem_failures::Failures;
use crate::{Sink, SinkFault};
use site_base::Row;
use std::alloc::Global;

/// A sink in memory, of which all is told. The n-th call fails exactly where n is listed, counted
/// from 1, `put` and `flush` together; a `put` that fails writes the first half of its bytes. It keeps nothing back.
#[derive(Drop)]
pub struct MemSink {
    bytes: Vec<u8>,
    failures: Failures,
    faults: u64,
}

impl MemSink {
    pub fn new(alloc: Global, failing: Row<u64>) -> MemSink
        ensures told { ⟦<MemSink as Sink>⟧.written result ≡ Some [] }
        ensures failing { sink_failures result ≡ fresh failing }
        ensures faults { ⟦<MemSink as Sink>⟧.faults result ≡ 0 }
        ensures calm { failing ≡ [] → ⟦<MemSink as Sink>⟧.calm result }
    {
        MemSink {
            bytes: Vec::new(alloc),
            failures: Failures::new(failing),
            faults: 0,
        }
    }

    /// All bytes that were written.
    pub fn written(&self) -> &[u8]
        ensures { ⟦<MemSink as Sink>⟧.written self.now ≡ Some result.now }
    {
        self.bytes.as_slice()
    }
}

impl Sink for MemSink {
    ghost written = { λ s. Some s.bytes.items };

    ghost kept_back = { λ _. 0 };

    ghost faults = { λ s. s.faults };

    ghost calm = { λ s. IsCalm s.failures };

    fn put(&mut self, bytes: &[u8]) -> Result<(), SinkFault>
        ensures ok { OnOk result (Adds bytes.now (Some self.old.bytes.items) (Some self.new.bytes.items)) }
        ensures err { OnErr result
            (AddsPart bytes.now (Some self.old.bytes.items) (Some self.new.bytes.items)) }
        ensures kept_back { 0 ≤ 0 + length bytes.now }
        ensures failing { FailsAsListed (sink_failures self.old) (sink_failures self.new)
            (IsErrOf result SinkFault.Failed) }
        ensures cause { IsErrOf result SinkFault.Failed → Rose self.old.faults self.new.faults }
        ensures counts { self.old.faults ≤ self.new.faults }
        ensures quiet { result ≢ Err SinkFault.Failed → self.new.faults ≡ self.old.faults }
        ensures calm { IsCalm (sink_failures self.old) → IsCalm (sink_failures self.new) }
        ensures unfailing { IsCalm (sink_failures self.old) → result ≢ Err SinkFault.Failed }
    {
        if fails(&mut self.failures, &mut self.faults) {
            let _ = self.bytes.extend_from_slice(&bytes[..bytes.len() / 2]);
            return Err(SinkFault::Failed);
        }
        match self.bytes.extend_from_slice(bytes) {
            Ok(()) => Ok(()),
            Err(_) => Err(SinkFault::OutOfMemory),
        }
    }

    fn flush(&mut self) -> Result<(), SinkFault>
        ensures kept { self.new.bytes ≡ self.old.bytes }
        ensures failing { FailsAsListed (sink_failures self.old) (sink_failures self.new)
            (IsErrOf result SinkFault.Failed) }
        ensures cause { IsErrOf result SinkFault.Failed → Rose self.old.faults self.new.faults }
        ensures counts { self.old.faults ≤ self.new.faults }
        ensures quiet { result ≢ Err SinkFault.Failed → self.new.faults ≡ self.old.faults }
        ensures calm { IsCalm (sink_failures self.old) → IsCalm (sink_failures self.new) }
        ensures unfailing { IsCalm (sink_failures self.old) → result ≢ Err SinkFault.Failed }
    {
        if fails(&mut self.failures, &mut self.faults) {
            return Err(SinkFault::Failed);
        }
        Ok(())
    }
}

/// Counts a call, and a fault where it is to fail.
fn fails(failures: &mut Failures, faults: &mut u64) -> bool
    ensures failing { FailsAsListed failures.old failures.new (IsTrue result) }
    ensures cause { IsTrue result → Rose faults.old faults.new }
    ensures counts { faults.old ≤ faults.new }
    ensures quiet { IsFalse result → faults.new ≡ faults.old }
    ensures calm { IsCalm failures.old → IsCalm failures.new }
    ensures spared { IsCalm failures.old → IsFalse result }
{
    let fails = failures.next_fails();
    if fails {
        *faults = faults.saturating_add(1);
    }
    fails
}
