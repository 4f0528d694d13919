// Why a cell wasn't changed.
use site_base::OutOfMemory;
use thiserror::Error;

/// Why a cell wasn't changed.
#[derive(Clone, Copy, Debug, PartialEq, Eq, Error)]
pub enum SetFault {
    /// The cell is frozen.
    #[error("the cell is frozen")]
    Frozen { cell: u32 },
    #[error("out of memory")]
    OutOfMemory,
}

impl From<OutOfMemory> for SetFault {
    ghost use Rattle.std.specs.Prelude.{◌≡◌};
    ghost use Rattle.dsl_value.specs.declared.set_fault.SetFault.TheVariants.{OutOfMemory};

    ghost from_gives = { λ _ e. e ≡ OutOfMemory };

    fn from(_: OutOfMemory) -> SetFault {
        SetFault::OutOfMemory
    }
}
