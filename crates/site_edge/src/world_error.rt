// Why the world gave no turn or took no orders.
use site_base::OutOfMemory;
use std::alloc::{AllocError, AllocFailed};
use thiserror::Error;

/// Why no turn was given, or orders were not started.
#[derive(Clone, Copy, Debug, PartialEq, Eq, Error)]
pub enum WorldError {
    /// The world could not do it. Its count of faults rose.
    #[error("the world failed")]
    Failed,
    #[error("out of memory")]
    OutOfMemory,
}

impl From<OutOfMemory> for WorldError {
    ghost use Rattle.std.specs.Prelude.{◌≡◌};
    ghost use Rattle.site_edge.specs.declared.world_error.WorldError.TheVariants.{OutOfMemory as Memory};

    ghost from_gives = { λ _ e. e ≡ Memory };

    fn from(_: OutOfMemory) -> Self {
        WorldError::OutOfMemory
    }
}

impl From<AllocError> for WorldError {
    ghost use Rattle.std.specs.Prelude.{◌≡◌};
    ghost use Rattle.site_edge.specs.declared.world_error.WorldError.TheVariants.{OutOfMemory as Memory};

    ghost from_gives = { λ _ e. e ≡ Memory };

    fn from(_: AllocError) -> Self {
        WorldError::OutOfMemory
    }
}

impl<T: Drop> From<AllocFailed<T>> for WorldError {
    ghost use Rattle.std.specs.Prelude.{◌≡◌};
    ghost use Rattle.site_edge.specs.declared.world_error.WorldError.TheVariants.{OutOfMemory as Memory};

    ghost from_gives = { λ _ e. e ≡ Memory };

    fn from(_: AllocFailed<T>) -> Self {
        WorldError::OutOfMemory
    }
}
