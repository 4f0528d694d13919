// How a task stands.

/// How a task of a wave stands: it is open, or a worker has it, or its answer is there.
#[derive(Drop)]
pub enum Slot<T, A> {
    Open(T),
    Claimed,
    Answered(A),
}
