// The world as the program sees it.
ghost use Rattle.std.specs.Prelude.{◌≡◌, ◌≢◌, ◌≤◌, ◌∷◌, [], List, ℕ, Option, Err, IfOk, OnOk, OnErr, IsErrOf};
ghost use Rattle.site_edge.specs.Lists.{Adds, AddsPart, TakesFirst};
ghost use Rattle.site_edge.specs.Told.{Rose};
ghost use Rattle.site_edge.specs.declared.order.Order.{Order};
ghost use Rattle.site_edge.specs.declared.turn.Turn.{Turn};

use crate::{Order, Turn, WorldError};

/// What gives turns and runs check programs.
pub trait World {
    /// The turns that are left, if they are told.
    ghost turns: { Self → Option (List Turn) };

    /// The orders that were started, if they are told.
    ghost started: { Self → Option (List Order) };

    /// The orders with which `start` was called, call by call, if they are told.
    ghost calls: { Self → Option (List (List Order)) };

    /// How often a call has failed.
    ghost faults: { Self → ℕ };

    /// No later call fails.
    ghost calm: { Self → Type 0 };

    /// The next turn, which is taken off the turns left; `None` if there is none.
    ///
    /// After an error the turns left are as before. `Failed` comes only if the count of faults
    /// rose in this call.
    fn next(&mut self) -> Result<Option<Turn>, WorldError>
        ensures ok { IfOk result (TakesFirst (turns self.old) (turns self.new)) }
        ensures err { OnErr result (turns self.new ≡ turns self.old) }
        ensures same { started self.new ≡ started self.old }
        ensures uncalled { calls self.new ≡ calls self.old }
        ensures cause { IsErrOf result WorldError.Failed → Rose (faults self.old) (faults self.new) }
        ensures counts { faults self.old ≤ faults self.new }
        ensures quiet { OnOk result (faults self.new ≡ faults self.old) }
        ensures calm { calm self.old → calm self.new }
        ensures unfailing { calm self.old → result ≢ Err WorldError.Failed };

    /// Starts all of the orders, or after an error some prefix of them. A call that fails may be told or not.
    ///
    /// `Failed` comes only if the count of faults rose in this call.
    fn start(&mut self, orders: &[Order]) -> Result<(), WorldError>
        ensures ok { OnOk result (Adds orders.now (started self.old) (started self.new)) }
        ensures err { OnErr result (AddsPart orders.now (started self.old) (started self.new)) }
        ensures called { OnOk result (Adds (orders.now ∷ []) (calls self.old) (calls self.new)) }
        ensures tried { OnErr result (AddsPart (orders.now ∷ []) (calls self.old) (calls self.new)) }
        ensures same { turns self.new ≡ turns self.old }
        ensures cause { IsErrOf result WorldError.Failed → Rose (faults self.old) (faults self.new) }
        ensures counts { faults self.old ≤ faults self.new }
        ensures quiet { OnOk result (faults self.new ≡ faults self.old) }
        ensures calm { calm self.old → calm self.new }
        ensures unfailing { calm self.old → result ≢ Err WorldError.Failed };
}
