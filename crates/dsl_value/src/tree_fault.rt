// Why a value has no tree.
use site_base::OutOfMemory;
use thiserror::Error;

/// Why a value has no tree.
#[derive(Clone, Copy, Debug, PartialEq, Eq, Error)]
pub enum TreeFault {
    /// The cell lies inside itself.
    #[error("a value lies inside itself")]
    Cyclic { cell: u32 },
    #[error("a value contains a function")]
    HasFunction,
    /// The tree costs more than 16,777,216 units.
    #[error("a value is too large")]
    TooLarge,
    #[error("out of memory")]
    OutOfMemory,
}

impl From<OutOfMemory> for TreeFault {
    ghost use Rattle.std.specs.Prelude.{◌≡◌};
    ghost use Rattle.dsl_value.specs.declared.tree_fault.TreeFault.TheVariants.{OutOfMemory};

    ghost from_gives = { λ _ e. e ≡ OutOfMemory };

    fn from(_: OutOfMemory) -> TreeFault {
        TreeFault::OutOfMemory
    }
}
