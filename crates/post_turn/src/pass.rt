// A caller's pass, and what is known by it.
use crate::Machine;
use crate::turns::Place;
use std::collections::LinkedList;

/// What a caller acts with at one post. It knows the history up to the caller's last turn, and the
/// entries in it that are the caller's own; both are known to contracts alone. It holds no memory and
/// may go to another thread. A post ends only with all its passes, so let none of them go.
#[derive(Drop)]
pub struct Pass<M: Machine> {
    pub(crate) place: Place<M>,
    pub(crate) caller: u32,
}

/// Whether a ticket is held and the turn has come, and the callers that the pass speaks for: one,
/// but for the pass from which all others are dealt and the one that gathers them. No value of it
/// is made.
pub struct View<M, S, E> {
    pub waits: bool,
    pub ticket: u64,
    pub turn: bool,
    pub callers: LinkedList<Caller<M, S, E>>,
}

/// A caller's number, what it has seen and what of this is its own, at a post of this machine and
/// this start. No value of it is made.
pub struct Caller<M, S, E> {
    pub machine: M,
    pub start: S,
    pub number: u32,
    pub seen: LinkedList<E>,
    pub mine: LinkedList<E>,
}
