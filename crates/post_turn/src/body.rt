// The state with its history, which one step of the machine makes longer.
ghost use Rattle.std.specs.Prelude.{◌≡◌, ℕ, ◌∷◌, [], ◌++◌, length, IfOk, IfErr};
ghost use Rattle.post_turn.specs.History.{Continues};

use crate::Machine;

/// The place of an entry and what was seen behind it.
#[derive(Drop)]
pub struct Receipt<M: Machine> {
    /// The place of the call's entry in the history, from 1.
    pub number: u64,
    /// The glance of the state that the entry made.
    pub glance: M::Glance,
}

/// There was no memory. The event comes back, and the history got no entry.
#[derive(Drop)]
pub struct Refused<M: Machine> {
    pub event: M::Event,
}

/// The state, and the history of all entries.
#[derive(Drop)]
pub(crate) struct Body<S, E> {
    pub state: S,
    pub history: Vec<E>,
}

impl<S, E> Body<S, E> {
    /// The length of the history.
    pub fn len(&self) -> u64
        ensures { result ≡ length self.now.history.items }
    {
        self.history.len() as u64
    }
}

/// Makes one step of the machine. The room for its entry is taken before the state is changed.
pub(crate) fn step<M: Machine>(
    machine: &M,
    body: &mut Body<M::State, M::Entry>,
    caller: u32,
    event: M::Event,
) -> Result<Receipt<M>, Refused<M>>
    requires { M.fit machine.now body.old.state × M.lawful machine.now event }
    ensures entry { IfOk result (λ _. body.new.history.items ≡ body.old.history.items ++ M.entry_of machine.now body.old.state caller event ∷ []) }
    ensures caller { IfOk result (λ _. M.caller_of (M.entry_of machine.now body.old.state caller event) ≡ caller) }
    ensures state { IfOk result (λ _. body.new.state ≡ M.after machine.now body.old.state (M.entry_of machine.now body.old.state caller event)) }
    ensures receipt { IfOk result (λ r. (r.number ≡ length body.new.history.items) × (r.glance ≡ M.glance_of machine.now body.new.state)) }
    ensures own { Continues M.caller_of caller body.old.history.items body.new.history.items }
    ensures fit { M.fit machine.now body.new.state }
    ensures refused { IfErr result (λ r. (r.event ≡ event) × (body.new.state ≡ body.old.state) × (body.new.history.items ≡ body.old.history.items)) }
{
    if body.history.reserve(1).is_err() {
        return Err(Refused { event });
    }
    match machine.step(&mut body.state, caller, event) {
        Ok(entry) => {
            if body.history.push(entry).is_err() {
                unreachable!()
            }
            Ok(Receipt {
                number: body.len(),
                glance: machine.glance(&body.state),
            })
        }
        Err(event) => Err(Refused { event }),
    }
}
