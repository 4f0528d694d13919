// Why a call of the library gave no value.
use site_base::OutOfMemory;
use std::alloc::{AllocError, AllocFailed};
use thiserror::Error;

/// Why a call of the library gave no value. The store is then as it was.
#[derive(Clone, Copy, Debug, PartialEq, Eq, Error)]
pub enum LibFault {
    /// The function takes another number of arguments.
    #[error("wrong number of arguments")]
    Arity,
    /// An argument, or an element of `match`, `join` or `sort`, has another type than the function takes; a text spells no
    /// number for `number`; a number of `get` or `substr` isn't whole; an end of the window of `substr` lies inside a character; the
    /// step of `range` isn't above 0.
    #[error("wrong type")]
    WrongType,
    /// A number is out of range. No function of the library answers so.
    #[error("a number out of range")]
    Overflow,
    /// The array or dictionary that is to be changed is frozen.
    #[error("the cell is frozen")]
    Frozen,
    #[error("out of memory")]
    OutOfMemory,
}

impl From<OutOfMemory> for LibFault {
    ghost use Rattle.std.specs.Prelude.{◌≡◌};
    ghost use Rattle.dsl_lib.specs.declared.lib_fault.LibFault.TheVariants.{OutOfMemory};

    ghost from_gives = { λ _ e. e ≡ OutOfMemory };

    fn from(_: OutOfMemory) -> LibFault {
        LibFault::OutOfMemory
    }
}

impl From<AllocError> for LibFault {
    ghost use Rattle.std.specs.Prelude.{◌≡◌};
    ghost use Rattle.dsl_lib.specs.declared.lib_fault.LibFault.TheVariants.{OutOfMemory};

    ghost from_gives = { λ _ e. e ≡ OutOfMemory };

    fn from(_: AllocError) -> LibFault {
        LibFault::OutOfMemory
    }
}

impl<T: Drop> From<AllocFailed<T>> for LibFault {
    ghost use Rattle.std.specs.Prelude.{◌≡◌};
    ghost use Rattle.dsl_lib.specs.declared.lib_fault.LibFault.TheVariants.{OutOfMemory};

    ghost from_gives = { λ _ e. e ≡ OutOfMemory };

    fn from(_: AllocFailed<T>) -> LibFault {
        LibFault::OutOfMemory
    }
}
