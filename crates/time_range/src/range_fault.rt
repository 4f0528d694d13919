use site_base::{OutOfMemory, Text};
use std::alloc::AllocError;
use thiserror::Error;

/// Why time ranges were not read.
#[derive(Debug, Drop, PartialEq, Eq, Error)]
pub enum RangeFault {
    /// This is the first key, in byte order, that is no day, or whose value is no list of spans.
    #[error("a bad time range")]
    BadRange { key: Text },
    #[error("out of memory")]
    OutOfMemory,
}

impl From<OutOfMemory> for RangeFault {
    ghost use Rattle.std.specs.Prelude.{◌≡◌};
    ghost use Rattle.time_range.specs.declared.range_fault.RangeFault.TheVariants.{OutOfMemory as Memory};

    ghost from_gives = { λ _ e. e ≡ Memory };

    fn from(_: OutOfMemory) -> Self {
        RangeFault::OutOfMemory
    }
}

impl From<AllocError> for RangeFault {
    ghost use Rattle.std.specs.Prelude.{◌≡◌};
    ghost use Rattle.time_range.specs.declared.range_fault.RangeFault.TheVariants.{OutOfMemory as Memory};

    ghost from_gives = { λ _ e. e ≡ Memory };

    fn from(_: AllocError) -> Self {
        RangeFault::OutOfMemory
    }
}
