// A world in memory.
ghost use Rattle.std.specs.Prelude.{◌≡◌, ◌≢◌, ◌≤◌, ◌++◌, ◌∷◌, [], IfOk, IsErrOf, Some, Err, OnOk, OnErr};
ghost use Rattle.site_edge.specs.Fakes.{fresh, world_failures, FailsAsListed, IsCalm};
ghost use Rattle.site_edge.specs.Lists.{IsFirst};
ghost use Rattle.site_edge.specs.Told.{Rose};

use crate::mem_failures::Failures;
use crate::{Order, Turn, World, WorldError};
use site_base::Row;
use std::alloc::Global;
use std::collections::VecDeque;
use trail::Trail;

/// A world in memory, of which all is told. The n-th call fails exactly where n is listed, counted
/// from 1, `next` and `start` together; a failing `start` starts none of its orders, and is not told.
#[derive(Drop)]
pub struct MemWorld {
    alloc: Global,
    turns: VecDeque<Turn>,
    started: Vec<Order>,
    calls: Trail<Row<Order>>,
    failures: Failures,
    faults: u64,
}

impl MemWorld {
    /// A world that gives these turns.
    pub fn new(alloc: Global, turns: Row<Turn>, failing: Row<u64>) -> MemWorld
        ensures turns { ⟦<MemWorld as World>⟧.turns result ≡ Some turns }
        ensures started { ⟦<MemWorld as World>⟧.started result ≡ Some [] }
        ensures calls { ⟦<MemWorld as World>⟧.calls result ≡ Some [] }
        ensures failing { world_failures result ≡ fresh failing }
        ensures faults { ⟦<MemWorld as World>⟧.faults result ≡ 0 }
        ensures calm { failing ≡ [] → ⟦<MemWorld as World>⟧.calm result }
    {
        MemWorld {
            alloc,
            turns: VecDeque::from(turns.into_vec()),
            started: Vec::new(alloc),
            calls: Trail::new(),
            failures: Failures::new(failing),
            faults: 0,
        }
    }

    /// All orders that were started.
    pub fn started(&self) -> &[Order]
        ensures { ⟦<MemWorld as World>⟧.started self.now ≡ Some result.now }
    {
        self.started.as_slice()
    }
}

impl World for MemWorld {
    ghost turns = { λ w. Some w.turns.items };

    ghost started = { λ w. Some w.started.items };

    ghost calls = { λ w. Some w.calls.items };

    ghost faults = { λ w. w.faults };

    ghost calm = { λ w. IsCalm w.failures };

    fn next(&mut self) -> Result<Option<Turn>, WorldError>
        ensures ok { IfOk result (IsFirst self.old.turns.items (Some self.new.turns.items)) }
        ensures err { OnErr result (self.new.turns.items ≡ self.old.turns.items) }
        ensures same { self.new.started.items ≡ self.old.started.items }
        ensures uncalled { self.new.calls.items ≡ self.old.calls.items }
        ensures failing { FailsAsListed (world_failures self.old) (world_failures self.new)
            (IsErrOf result WorldError.Failed) }
        ensures cause { IsErrOf result WorldError.Failed → Rose self.old.faults self.new.faults }
        ensures counts { self.old.faults ≤ self.new.faults }
        ensures quiet { result ≢ Err WorldError.Failed → self.new.faults ≡ self.old.faults }
        ensures calm { IsCalm (world_failures self.old) → IsCalm (world_failures self.new) }
        ensures unfailing { IsCalm (world_failures self.old) → result ≢ Err WorldError.Failed }
    {
        if self.failures.next_fails() {
            self.faults = self.faults.saturating_add(1);
            return Err(WorldError::Failed);
        }
        Ok(self.turns.pop_front())
    }

    fn start(&mut self, orders: &[Order]) -> Result<(), WorldError>
        ensures ok { OnOk result (self.new.started.items ≡ self.old.started.items ++ orders.now) }
        ensures err { OnErr result (self.new.started.items ≡ self.old.started.items) }
        ensures called { OnOk result (self.new.calls.items ≡ self.old.calls.items ++ orders.now ∷ []) }
        ensures tried { OnErr result (self.new.calls.items ≡ self.old.calls.items) }
        ensures same { self.new.turns.items ≡ self.old.turns.items }
        ensures failing { FailsAsListed (world_failures self.old) (world_failures self.new)
            (IsErrOf result WorldError.Failed) }
        ensures cause { IsErrOf result WorldError.Failed → Rose self.old.faults self.new.faults }
        ensures counts { self.old.faults ≤ self.new.faults }
        ensures quiet { result ≢ Err WorldError.Failed → self.new.faults ≡ self.old.faults }
        ensures calm { IsCalm (world_failures self.old) → IsCalm (world_failures self.new) }
        ensures unfailing { IsCalm (world_failures self.old) → result ≢ Err WorldError.Failed }
    {
        if self.failures.next_fails() {
            self.faults = self.faults.saturating_add(1);
            return Err(WorldError::Failed);
        }
        let mut call = Vec::new(self.alloc);
        call.extend_with_clones(orders)?;
        self.started.extend_with_clones(orders)?;
        self.calls = self.calls.and(&Row::from(call));
        Ok(())
    }
}
