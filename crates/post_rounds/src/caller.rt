// One caller of a round.
use crate::Job;
use post_turn::{Machine, Pass};
use std::alloc::Global;

/// A caller: its number, its passes, one of each post in their order, and its jobs.
#[derive(Drop)]
pub struct Caller<M: Machine, W> {
    pub(crate) alloc: Global,
    pub(crate) number: u32,
    pub(crate) hand: Vec<Pass<M>>,
    pub(crate) jobs: Vec<Job<W>>,
}

impl<M: Machine, W: Drop> Caller<M, W> {
    /// Whether it has no job.
    pub fn is_idle(&self) -> bool {
        self.jobs.is_empty()
    }
}
