// A downtime at its place in a run.
use crate::downtime::Downtime;
use crate::firsts::Firsts;

/// A downtime in a run, and what comes first of it and of those after it.
#[derive(Drop)]
pub struct Placed {
    pub downtime: Downtime,
    pub firsts: Firsts,
}
