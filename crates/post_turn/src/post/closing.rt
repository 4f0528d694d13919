// How a post ends.
ghost use Rattle.std.specs.Prelude.{◌≡◌, ℕ, ◌<◌, ◌≤◌, [], ◌∷◌, ◌++◌, length, All, IfOk, IfErr};
ghost use Rattle.post_turn.specs.History.{IsFront, entries_of, replay};
ghost use Rattle.post_turn.specs.Turns.{resting, Each, Knows, IsBody};
ghost use Rattle.post_turn.specs.Passes.{start_of, callers_of, seen_of, mine_of, IsPassOf, IsOn, KnowsOwn, callers_on};

use crate::body::Body;
use crate::turns::{Gather, Place, TurnLock};
use crate::{Machine, Pass, Post};
use site_base::Row;

impl<M: Machine> Post<M> {
    /// Ends the post, with all its passes in any order: the state and the history that led to it.
    ///
    /// Fails for want of memory alone, and then hands everything back. It takes no memory now.
    pub fn close(
        self,
        passes: Row<Pass<M>>,
    ) -> Result<(M::State, Row<M::Entry>), (Post<M>, Row<Pass<M>>)>
        requires { (length passes ≡ callers_of self) × All (IsPassOf self) passes }
        ensures state { IfOk result (λ r. (r.0 ≡ replay (M.after self.machine) (start_of self) r.1) × M.fit self.machine r.0) }
        ensures passes { IfOk result (λ r. All (λ p. IsFront (seen_of p) r.1 × (entries_of M.caller_of p.caller r.1 ≡ mine_of p) × KnowsOwn M.caller_of p) passes) }
        ensures callers { IfOk result (λ r. (k : ℕ) → callers_of self ≤ k → entries_of M.caller_of k r.1 ≡ []) }
        ensures refused { IfErr result (λ r. (r.0 ≡ self) × (r.1 ≡ passes)) }
    {
        let Post {
            lock,
            machine,
            number: _,
        } = self;
        drop(machine);
        let place = gather(&lock, passes);
        let body = end(lock, place);
        Ok((body.state, Row::from(body.history)))
    }
}

// One place for the callers of all passes.
fn gather<M: Machine>(lock: &TurnLock<M>, passes: Row<Pass<M>>) -> Place<M>
    requires { (0 < length passes) × All (IsOn lock.now.shared.table_id) passes × (0 < lock.now.shared.table_id.words) }
    ensures { (result.table_id ≡ lock.now.shared.table_id) × (result.me ≡ (resting (callers_on passes), [])) }
{
    let mut passes = passes.into_vec();
    let Some(
        Pass {
            place: mut all,
            caller: _,
        },
    ) = passes.pop()
    else {
        unreachable!()
    };
    while let Some(Pass { place, caller: _ }) = passes.pop() {
        lock.shared.join_seat::<Gather>(&mut all, place);
    }
    all
}

// The body, once the place of all callers has come back.
fn end<M: Machine>(lock: TurnLock<M>, place: Place<M>) -> Body<M::State, M::Entry>
    requires place { (place.table_id ≡ lock.shared.table_id) × (lock.shared.table_id.slots ≡ 1) }
    requires all { (place.me.0 ≡ resting place.me.0.callers) × (length place.me.0.callers ≡ lock.shared.key.value.callers) }
    ensures body { IsBody M.fit M.after M.caller_of lock.shared.key.value.machine lock.shared.key.value.start lock.shared.key.value.callers result.history.items result }
    ensures known { Each (Knows M.fit M.after M.caller_of lock.shared.key.value.machine lock.shared.key.value.start lock.shared.key.value.callers result.history.items) place.me.0.callers }
    ensures own { (k : ℕ) → lock.shared.key.value.callers ≤ k → entries_of M.caller_of k result.history.items ≡ [] }
{
    let mut closed = lock.close_with(place);
    let slot = closed.take(0);
    closed.free();
    slot.unwrap()
}
