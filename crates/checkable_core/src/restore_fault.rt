// Why entries make no checkable.
use site_base::OutOfMemory;
use thiserror::Error;

/// Why entries make no checkable.
#[derive(Clone, Copy, Debug, PartialEq, Eq, Error)]
pub enum RestoreFault {
    /// They aren't numbered from 1, moments fall, a result's status is above 3, a downtime ends before it starts, is fixed with a
    /// duration or flexible without one, or an index in them is none of the site's.
    #[error("no history of a checkable")]
    BadHistory,
    #[error("out of memory")]
    OutOfMemory,
}

impl From<OutOfMemory> for RestoreFault {
    ghost use Rattle.std.specs.Prelude.{◌≡◌};
    ghost use Rattle.checkable_core.specs.declared.restore_fault.RestoreFault.TheVariants.{OutOfMemory as Memory};

    ghost from_gives = { λ _ e. e ≡ Memory };

    fn from(_: OutOfMemory) -> Self {
        RestoreFault::OutOfMemory
    }
}
