// Why a member isn't read or written.
use site_base::OutOfMemory;
use std::alloc::AllocError;
use thiserror::Error;

/// Why a member or an element isn't read or written.
#[derive(Clone, Copy, Debug, PartialEq, Eq, Error)]
pub enum MemberFault {
    /// The value has no members and isn't null; the key has another type than the value takes, or is a number that isn't whole; or
    /// what is to be written lies outside of an array, or in null.
    #[error("wrong type")]
    WrongType,
    /// The array or dictionary that is to be changed is frozen.
    #[error("the cell is frozen")]
    Frozen,
    #[error("out of memory")]
    OutOfMemory,
}

impl From<OutOfMemory> for MemberFault {
    ghost use Rattle.std.specs.Prelude.{◌≡◌};
    ghost use Rattle.dsl_ops.specs.declared.member_fault.MemberFault.TheVariants.{OutOfMemory};

    ghost from_gives = { λ _ e. e ≡ OutOfMemory };

    fn from(_: OutOfMemory) -> MemberFault {
        MemberFault::OutOfMemory
    }
}

impl From<AllocError> for MemberFault {
    ghost use Rattle.std.specs.Prelude.{◌≡◌};
    ghost use Rattle.dsl_ops.specs.declared.member_fault.MemberFault.TheVariants.{OutOfMemory};

    ghost from_gives = { λ _ e. e ≡ OutOfMemory };

    fn from(_: AllocError) -> MemberFault {
        MemberFault::OutOfMemory
    }
}
