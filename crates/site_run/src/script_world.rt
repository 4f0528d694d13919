// The world of a script.
ghost use Rattle.std.specs.Prelude.{◌≡◌, Some, None};

use site_base::Row;
use site_edge::{Order, Turn, World, WorldError};
use std::collections::VecDeque;

/// A world that gives the turns of a script, and runs no check: it takes all orders and forgets them. No call fails.
#[derive(Drop)]
pub struct ScriptWorld {
    turns: VecDeque<Turn>,
}

impl ScriptWorld {
    pub fn new(turns: Row<Turn>) -> ScriptWorld
        ensures turns { ⟦<ScriptWorld as World>⟧.turns result ≡ Some turns }
        ensures started { ⟦<ScriptWorld as World>⟧.started result ≡ None }
        ensures calls { ⟦<ScriptWorld as World>⟧.calls result ≡ None }
        ensures calm { ⟦<ScriptWorld as World>⟧.calm result }
    {
        ScriptWorld {
            turns: VecDeque::from(turns.into_vec()),
        }
    }
}

impl World for ScriptWorld {
    ghost use Rattle.std.specs.Prelude.{Some, None};

    ghost turns = { λ w. Some w.turns.items };

    ghost started = { λ _. None };

    ghost calls = { λ _. None };

    ghost faults = { λ _. 0 };

    ghost calm = { λ _. Unit {0} };

    /// The next turn, in constant time.
    fn next(&mut self) -> Result<Option<Turn>, WorldError> {
        Ok(self.turns.pop_front())
    }

    fn start(&mut self, _orders: &[Order]) -> Result<(), WorldError> {
        Ok(())
    }
}
