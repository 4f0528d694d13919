use thiserror::Error;

/// Why a zone file was not read.
#[derive(Clone, Copy, Debug, PartialEq, Eq, Error)]
pub enum ZoneFault {
    /// The bytes are no zone file, or its rule contradicts its table.
    #[error("a bad zone file")]
    BadZone,
    #[error("out of memory")]
    OutOfMemory,
}
