// Why a command line gives no event.
use crate::LineFault;
use site_base::OutOfMemory;
use thiserror::Error;

/// Why [`read_line`](crate::read_line) gives no event.
#[derive(Clone, Copy, Debug, PartialEq, Eq, Error)]
pub enum LineError {
    #[error("{0}")]
    Fault(LineFault),
    #[error("out of memory")]
    OutOfMemory,
}

impl From<OutOfMemory> for LineError {
    ghost use Rattle.std.specs.Prelude.{◌≡◌};
    ghost use Rattle.event_text.specs.declared.line_error.LineError.TheVariants.{OutOfMemory as NoMemory};

    ghost from_gives = { λ _ e. e ≡ NoMemory };

    fn from(_: OutOfMemory) -> LineError {
        LineError::OutOfMemory
    }
}
