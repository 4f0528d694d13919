// Why bytes are no state file of a site.
use checkable_core::RestoreFault;
use log_text::EntryError;
use site_base::OutOfMemory;
use std::alloc::{AllocError, AllocFailed};
use thiserror::Error;

/// Why [`restore`](crate::restore) gives no checkables.
#[derive(Clone, Copy, Debug, PartialEq, Eq, Error)]
pub enum KeepError {
    /// The bytes are no state file of the site.
    #[error("no state file of the site")]
    BadState,
    #[error("out of memory")]
    OutOfMemory,
}

impl From<OutOfMemory> for KeepError {
    ghost use Rattle.std.specs.Prelude.{◌≡◌};
    ghost use Rattle.site_keep.specs.declared.keep_error.KeepError.TheVariants.{OutOfMemory as NoMemory};

    ghost from_gives = { λ _ e. e ≡ NoMemory };

    fn from(_: OutOfMemory) -> KeepError {
        KeepError::OutOfMemory
    }
}

impl From<AllocError> for KeepError {
    ghost use Rattle.std.specs.Prelude.{◌≡◌};
    ghost use Rattle.site_keep.specs.declared.keep_error.KeepError.TheVariants.{OutOfMemory as NoMemory};

    ghost from_gives = { λ _ e. e ≡ NoMemory };

    fn from(_: AllocError) -> KeepError {
        KeepError::OutOfMemory
    }
}

impl<T: Drop> From<AllocFailed<T>> for KeepError {
    ghost use Rattle.std.specs.Prelude.{◌≡◌};
    ghost use Rattle.site_keep.specs.declared.keep_error.KeepError.TheVariants.{OutOfMemory as NoMemory};

    ghost from_gives = { λ _ e. e ≡ NoMemory };

    fn from(_: AllocFailed<T>) -> KeepError {
        KeepError::OutOfMemory
    }
}

impl From<EntryError> for KeepError {
    ghost use Rattle.std.specs.Prelude.{◌≡◌};
    ghost use Rattle.site_keep.specs.Causes.{of_entry};

    ghost from_gives = { λ cause e. e ≡ of_entry cause };

    fn from(cause: EntryError) -> KeepError {
        match cause {
            EntryError::BadLine => KeepError::BadState,
            EntryError::OutOfMemory => KeepError::OutOfMemory,
        }
    }
}

impl From<RestoreFault> for KeepError {
    ghost use Rattle.std.specs.Prelude.{◌≡◌};
    ghost use Rattle.site_keep.specs.Causes.{of_history};

    ghost from_gives = { λ cause e. e ≡ of_history cause };

    fn from(cause: RestoreFault) -> KeepError {
        match cause {
            RestoreFault::BadHistory => KeepError::BadState,
            RestoreFault::OutOfMemory => KeepError::OutOfMemory,
        }
    }
}
