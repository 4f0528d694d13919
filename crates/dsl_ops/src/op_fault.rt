// Why an operator gives no value.
use site_base::OutOfMemory;
use std::alloc::AllocError;
use thiserror::Error;

/// Why an operator gives no value.
#[derive(Clone, Copy, Debug, PartialEq, Eq, Error)]
pub enum OpFault {
    /// The operator isn't for operands of these types, or it is for whole numbers and one isn't whole.
    #[error("operands of the wrong type")]
    WrongType,
    /// The number is out of range, or a shift isn't by 0 to 62 places.
    #[error("out of range")]
    Overflow,
    /// The divisor is 0.
    #[error("division by zero")]
    DivZero,
    #[error("out of memory")]
    OutOfMemory,
}

impl From<OutOfMemory> for OpFault {
    ghost use Rattle.std.specs.Prelude.{◌≡◌};
    ghost use Rattle.dsl_ops.specs.declared.op_fault.OpFault.TheVariants.{OutOfMemory};

    ghost from_gives = { λ _ e. e ≡ OutOfMemory };

    fn from(_: OutOfMemory) -> OpFault {
        OpFault::OutOfMemory
    }
}

impl From<AllocError> for OpFault {
    ghost use Rattle.std.specs.Prelude.{◌≡◌};
    ghost use Rattle.dsl_ops.specs.declared.op_fault.OpFault.TheVariants.{OutOfMemory};

    ghost from_gives = { λ _ e. e ≡ OutOfMemory };

    fn from(_: AllocError) -> OpFault {
        OpFault::OutOfMemory
    }
}
