// The orders of checks that have no report yet.
ghost use Rattle.std.specs.Prelude.{◌≡◌, ◌<◌, ◌+◌, ◌-◌, ◌^◌, ◌++◌, ◌∷◌, [], length, IfOk, OnOk, OnErr};
ghost use Rattle.run_meaning.specs.Dealing.{checkable_of, without};

use site_base::OutOfMemory;
use std::alloc::Global;
use std::collections::BTreeMap;
use std::marker::Model;

/// How many checks were ordered, and which of the orders have no report yet. Clauses see these in the order in which they were given.
#[derive(Drop)]
pub struct OrderBook {
    given: u64,
    /// The checkables of those without a report, by the numbers of their orders.
    checkables: BTreeMap<u64, u32>,
}

impl Model for OrderBook {
    ghost use Rattle.std.specs.Prelude.{map};
    ghost use Rattle.order_book.specs.Orders.{Orders, Rise, outstanding_of};

    ghost Value = { Orders };

    ghost view = { λ b. record { given = b.given; outstanding = map outstanding_of b.checkables.entries } };

    ghost invariant = { λ b. Rise 0 b.given b.checkables.entries };
}

impl OrderBook {
    /// Before the first order.
    pub fn new(alloc: Global) -> OrderBook
        ensures { result ≡ record { given = 0; outstanding = [] } }
    {
        OrderBook {
            given: 0,
            checkables: BTreeMap::new(alloc),
        }
    }

    /// Gives an order for a checkable, and tells its number, which is one more than the last one's.
    ///
    /// # Errors
    ///
    /// `OutOfMemory` if there is none for it; the book is then as before.
    pub fn give(&mut self, checkable: u32) -> Result<u64, OutOfMemory>
        requires { self.old.given < 2 ^ 64 - 1 }
        ensures number { IfOk result (λ n. n ≡ self.old.given + 1) }
        ensures ok { OnOk result (self.new ≡ record { given = self.old.given + 1; outstanding = self.old.outstanding ++ record { order = self.old.given + 1; checkable = checkable } ∷ [] }) }
        ensures err { OnErr result (self.new ≡ self.old) }
    {
        let order = self.given + 1;
        self.checkables.insert(order, checkable)?;
        self.given = order;
        Ok(order)
    }

    /// Takes a report of an order, and tells the checkable that it is for. `None` comes where the order wasn't given, or had a
    /// report before.
    pub fn take(&mut self, order: u64) -> Option<u32>
        ensures checkable { result ≡ checkable_of order self.old.outstanding }
        ensures left { self.new ≡ record { given = self.old.given; outstanding = without order self.old.outstanding } }
    {
        self.checkables.remove(&order)
    }

    /// How many orders have no report yet.
    pub fn outstanding(&self) -> usize
        ensures { result ≡ length self.now.outstanding }
    {
        self.checkables.len()
    }

    /// How many orders were given.
    pub fn given(&self) -> u64
        ensures { result ≡ self.now.given }
    {
        self.given
    }
}
