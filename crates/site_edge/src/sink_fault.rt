// The faults of a sink.
use thiserror::Error;

/// Why bytes were not written.
#[derive(Clone, Copy, Debug, PartialEq, Eq, Error)]
pub enum SinkFault {
    /// They could not be written. The sink's count of faults rose.
    #[error("the output could not be written")]
    Failed,
    #[error("out of memory")]
    OutOfMemory,
}
