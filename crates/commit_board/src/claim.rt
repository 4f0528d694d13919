// What a worker takes from a board, and gives back.

use std::marker::PhantomData;

/// Which task a worker has: the number of its wave and its place there. A ticket can't be let go: it has to be put back.
pub struct Ticket<L> {
    pub(crate) wave: u32,
    pub(crate) place: usize,
    pub(crate) of: PhantomData<L>,
}

/// A task that a worker has claimed, with its ticket.
pub struct Claim<T, L> {
    pub task: T,
    pub ticket: Ticket<L>,
}

/// What a worker gives back: an answer, or the task itself, where memory ended.
#[derive(Drop)]
pub enum Found<T, A> {
    Answer(A),
    Task(T),
}
