// Why the real files could not be read.
use site_base::{OutOfMemory, Text};
use std::alloc::{AllocError, AllocFailed, Global};
use std::fmt::{Display, Formatter};
use std::io::ErrorKind;
use std::{fmt, io};

/// A file that could not be read or a folder that could not be listed, and why.
#[derive(Drop)]
pub struct Unread {
    pub name: Text,
    pub why: io::Error,
}

impl Display for Unread {
    /// Writes `NAME: WHY`.
    fn fmt<W: fmt::Write>(&self, f: &mut Formatter<W>) -> fmt::Result {
        let Unread { name, why } = self;
        write!(f, "{}: {why}", name.as_str())
    }
}

/// Why a call on the real files failed.
#[derive(Drop)]
pub(crate) enum DiskFault {
    Failed(io::Error),
    OutOfMemory,
}

impl DiskFault {
    /// That there is too much of something.
    pub(crate) fn too_much(why: &str) -> DiskFault {
        DiskFault::Failed(io::Error::new(ErrorKind::FileTooLarge, why))
    }

    /// What could not be read; `None` for want of memory.
    pub(crate) fn of(self, alloc: Global, name: &str) -> Option<Unread> {
        match (self, Text::copy_of(alloc, name)) {
            (DiskFault::Failed(why), Ok(name)) => Some(Unread { name, why }),
            _ => None,
        }
    }
}

impl From<OutOfMemory> for DiskFault {
    fn from(_: OutOfMemory) -> DiskFault {
        DiskFault::OutOfMemory
    }
}

impl From<AllocError> for DiskFault {
    fn from(_: AllocError) -> DiskFault {
        DiskFault::OutOfMemory
    }
}

impl<T: Drop> From<AllocFailed<T>> for DiskFault {
    fn from(_: AllocFailed<T>) -> DiskFault {
        DiskFault::OutOfMemory
    }
}

impl From<io::Error> for DiskFault {
    fn from(error: io::Error) -> DiskFault {
        match error.kind() {
            ErrorKind::OutOfMemory => DiskFault::OutOfMemory,
            _ => DiskFault::Failed(error),
        }
    }
}
