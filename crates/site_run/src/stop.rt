// Why a run stops within a turn.
use crate::status::Status;
use site_base::OutOfMemory;
use site_edge::{SinkFault, WorldError};

/// Why a run stops within a turn.
#[derive(Clone, Copy, PartialEq, Eq)]
pub(crate) enum Stop {
    /// A line could not be written.
    Sink,
    /// The world could not do it.
    World,
    OutOfMemory,
}

impl Stop {
    ghost use Rattle.std.specs.Prelude.{◌≡◌};
    ghost use Rattle.site_run.specs.Stops.{status_of};

    /// With what the run ends.
    pub(crate) fn status(self) -> Status
        ensures { result ≡ status_of self }
    {
        match self {
            Stop::Sink => Status::WriteFault,
            Stop::World => Status::WorldFault,
            Stop::OutOfMemory => Status::OutOfMemory,
        }
    }
}

impl From<OutOfMemory> for Stop {
    ghost use Rattle.std.specs.Prelude.{◌≡◌};
    ghost use Rattle.site_run.specs.declared.stop.Stop.TheVariants.{OutOfMemory as Memory};

    ghost from_gives = { λ _ stop. stop ≡ Memory };

    fn from(_: OutOfMemory) -> Stop {
        Stop::OutOfMemory
    }
}

impl From<SinkFault> for Stop {
    ghost use Rattle.std.specs.Prelude.{◌≡◌};
    ghost use Rattle.site_run.specs.Stops.{stop_of_sink};

    ghost from_gives = { λ fault stop. stop ≡ stop_of_sink fault };

    fn from(fault: SinkFault) -> Stop {
        match fault {
            SinkFault::Failed => Stop::Sink,
            SinkFault::OutOfMemory => Stop::OutOfMemory,
        }
    }
}

impl From<WorldError> for Stop {
    ghost use Rattle.std.specs.Prelude.{◌≡◌};
    ghost use Rattle.site_run.specs.Stops.{stop_of_world};

    ghost from_gives = { λ error stop. stop ≡ stop_of_world error };

    fn from(error: WorldError) -> Stop {
        match error {
            WorldError::Failed => Stop::World,
            WorldError::OutOfMemory => Stop::OutOfMemory,
        }
    }
}
