// Why an evaluation ends early.
use eval_meaning::Read;
use site_base::{DiagKind, OutOfMemory, Place, Text};
use std::alloc::{AllocError, AllocFailed};

/// Why an evaluation ends early: want of memory, a fault with its detail, or a read that isn't decided.
#[derive(Drop)]
pub enum Stop {
    Memory,
    Fault {
        place: Place,
        kind: DiagKind,
        text: Text,
    },
    Blocked(Read),
}

impl From<OutOfMemory> for Stop {
    ghost use Rattle.std.specs.Prelude.{◌≡◌};
    ghost use Rattle.eval_work.specs.declared.stop.Stop.TheVariants.{Memory};

    ghost from_gives = { λ _ e. e ≡ Memory };

    fn from(_: OutOfMemory) -> Stop {
        Stop::Memory
    }
}

impl From<AllocError> for Stop {
    ghost use Rattle.std.specs.Prelude.{◌≡◌};
    ghost use Rattle.eval_work.specs.declared.stop.Stop.TheVariants.{Memory};

    ghost from_gives = { λ _ e. e ≡ Memory };

    fn from(_: AllocError) -> Stop {
        Stop::Memory
    }
}

impl<T: Drop> From<AllocFailed<T>> for Stop {
    ghost use Rattle.std.specs.Prelude.{◌≡◌};
    ghost use Rattle.eval_work.specs.declared.stop.Stop.TheVariants.{Memory};

    ghost from_gives = { λ _ e. e ≡ Memory };

    fn from(_: AllocFailed<T>) -> Stop {
        Stop::Memory
    }
}
