// The table of a post: its rule, what each step tells its caller, and how passes are dealt and gathered.
ghost use Rattle.post_turn.specs.Turns.{Kept, everyone, drawn, awaited, served, first_of, rest_of, gathered, nobody};

use crate::Machine;
use crate::body::Body;
use crate::pass::View;
use atomic_table::{Join, Play, Seat, Split, Table, TableRule};
use std::alloc::Global;
use std::marker::PhantomData;
use std::snapshot::Snapshot;

/// What a post was made with.
pub(crate) struct About<M, S> {
    pub machine: M,
    pub start: S,
    pub callers: u32,
}

/// The rule, over the words and the slot of the table.
pub(crate) struct Turns<M> {
    machine: PhantomData<M>,
}

/// What the one slot holds while no caller has the turn.
pub(crate) type Slot<M: Machine> = Option<Body<M::State, M::Entry>>;

pub(crate) type ViewOf<M: Machine> = View<M, M::State, M::Entry>;

impl<M: Machine> TableRule<Slot<M>, ViewOf<M>, Snapshot<About<M, M::State>>> for Turns<M> {
    ghost holds = { λ key. Kept M.fit M.after M.caller_of key.value.machine key.value.start key.value.callers };

    ghost first = { λ key. everyone key.value.machine key.value.start key.value.callers };
}

pub(crate) type TurnLock<M: Machine> = Table<
    Slot<M>,
    ViewOf<M>,
    Snapshot<About<M, M::State>>,
    Turns<M>,
    Global,
>;

pub(crate) type Place<M: Machine> = Seat<Slot<M>, ViewOf<M>>;

/// Draws a ticket.
pub(crate) struct Draw;

impl<M, S, E> Play<Option<Body<S, E>>, View<M, S, E>> for Draw {
    ghost then = { drawn };
}

/// Looks whether the turn has come, and takes the slot where it has.
pub(crate) struct Await<M> {
    machine: PhantomData<M>,
}

impl<M: Machine> Play<Slot<M>, ViewOf<M>> for Await<M> {
    ghost then = { awaited M.fit M.after M.caller_of };
}

/// Gives the slot back and calls the next ticket.
pub(crate) struct Serve;

impl<M, S, E> Play<Option<Body<S, E>>, View<M, S, E>> for Serve {
    ghost then = { served };
}

/// The first caller gets a pass of its own.
pub(crate) struct Deal;

impl<M, S, E> Split<View<M, S, E>> for Deal {
    ghost left = { rest_of };

    ghost right = { first_of };
}

/// One pass takes in another.
pub(crate) struct Gather;

impl<M, S, E> Join<View<M, S, E>> for Gather {
    ghost both = { gathered };

    ghost spent = { nobody };
}
