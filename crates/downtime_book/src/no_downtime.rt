// The refusal of a cancel.
use thiserror::Error;

/// No downtime of that number is live: it never was added, was cancelled, or is past.
#[derive(Clone, Copy, Debug, PartialEq, Eq, Error)]
#[error("no live downtime has this number")]
pub struct NoDowntime;
