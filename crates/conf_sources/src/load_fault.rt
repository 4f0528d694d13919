// Why a site was not read.
use site_base::OutOfMemory;
use site_edge::FileFault;
use std::alloc::{AllocError, AllocFailed};
use thiserror::Error;

/// Why a site was not read.
#[derive(Clone, Copy, Debug, PartialEq, Eq, Error)]
pub enum LoadFault {
    /// A file could not be read, or a folder not listed. The files' count of faults rose.
    #[error("the files could not be read")]
    Failed,
    #[error("out of memory")]
    OutOfMemory,
}

impl From<FileFault> for LoadFault {
    ghost use Rattle.std.specs.Prelude.{◌≡◌};
    ghost use Rattle.conf_sources.specs.Faults.{load_fault_of};

    ghost from_gives = { λ f e. e ≡ load_fault_of f };

    fn from(fault: FileFault) -> Self {
        match fault {
            FileFault::Failed => LoadFault::Failed,
            FileFault::OutOfMemory => LoadFault::OutOfMemory,
        }
    }
}

impl From<OutOfMemory> for LoadFault {
    ghost use Rattle.std.specs.Prelude.{◌≡◌};
    ghost use Rattle.conf_sources.specs.declared.load_fault.LoadFault.TheVariants.{OutOfMemory as Memory};

    ghost from_gives = { λ _ e. e ≡ Memory };

    fn from(_: OutOfMemory) -> Self {
        LoadFault::OutOfMemory
    }
}

impl From<AllocError> for LoadFault {
    ghost use Rattle.std.specs.Prelude.{◌≡◌};
    ghost use Rattle.conf_sources.specs.declared.load_fault.LoadFault.TheVariants.{OutOfMemory as Memory};

    ghost from_gives = { λ _ e. e ≡ Memory };

    fn from(_: AllocError) -> Self {
        LoadFault::OutOfMemory
    }
}

impl<T: Drop> From<AllocFailed<T>> for LoadFault {
    ghost use Rattle.std.specs.Prelude.{◌≡◌};
    ghost use Rattle.conf_sources.specs.declared.load_fault.LoadFault.TheVariants.{OutOfMemory as Memory};

    ghost from_gives = { λ _ e. e ≡ Memory };

    fn from(_: AllocFailed<T>) -> Self {
        LoadFault::OutOfMemory
    }
}
