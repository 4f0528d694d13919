// What callers do at a post: one turn, from its begin to its end.
ghost use Rattle.std.specs.Prelude.{◌≡◌, ℕ, ◌∷◌, [], ◌++◌, length, drop, IfOk, IfErr};
ghost use Rattle.post_turn.specs.History.{IsFront, Continues, replay};
ghost use Rattle.post_turn.specs.Passes.{start_of, seen_of, mine_of, IsPassOf, HasTurn, KnowsOwn, SeesFit, Stands, Acts};

use super::waiting::{Waiting, wake_next};
use crate::body::{Body, step};
use crate::turns::{Await, Draw, Serve};
use crate::{Gate, GatePoint, Machine, Pass, Post, Receipt, Refused};
use std::sync::Wait;

impl<M: Machine> Post<M> {
    /// Waits for the turn of the pass's caller, makes one step of the machine and gives the turn on.
    /// The gate is entered at Inside while the caller has the turn, and at Outside after that.
    ///
    /// Refused for want of memory alone, the machine's or that for the entry, which is taken before the
    /// machine's step. The event comes back and the history gets no entry, but what the pass has seen
    /// may be longer. The gate is entered then too.
    pub fn act<R: Wait, G: Gate>(
        &self,
        rt: &R,
        pass: &mut Pass<M>,
        event: M::Event,
        gate: &G,
    ) -> Result<Receipt<M>, Refused<M>>
        requires pass { IsPassOf self.now pass.old }
        requires event { M.lawful self.now.machine event }
        ensures pass { IsPassOf self.now pass.new × (pass.new.caller ≡ pass.old.caller) }
        ensures own { KnowsOwn M.caller_of pass.new }
        ensures fit { SeesFit M.fit M.after self.now pass.new }
        ensures entry { IfOk result (λ _. Acts M.caller_of (λ before. M.entry_of self.now.machine (replay (M.after self.now.machine) (start_of self.now) before) pass.old.caller event) pass.old pass.new) }
        ensures receipt { IfOk result (λ r. (r.number ≡ length (seen_of pass.new)) × (r.glance ≡ M.glance_of self.now.machine (replay (M.after self.now.machine) (start_of self.now) (seen_of pass.new)))) }
        ensures refused { IfErr result (λ r. (r.event ≡ event) × IsFront (seen_of pass.old) (seen_of pass.new) × (mine_of pass.new ≡ mine_of pass.old)) }
    {
        let mut body = self.enter(rt, pass);
        gate.enter(pass.caller, GatePoint::Inside(self.number));
        let answer = step(&self.machine, &mut body, pass.caller, event);
        self.leave(pass, body);
        gate.enter(pass.caller, GatePoint::Outside(self.number));
        answer
    }

    /// Waits for the turn and gives it on, with the history as it is: its length and the glance of
    /// its state. Takes no memory.
    pub fn look<R: Wait>(&self, rt: &R, pass: &mut Pass<M>) -> (u64, M::Glance)
        requires { IsPassOf self.now pass.old }
        ensures pass { IsPassOf self.now pass.new × (pass.new.caller ≡ pass.old.caller) }
        ensures own { KnowsOwn M.caller_of pass.new }
        ensures fit { SeesFit M.fit M.after self.now pass.new }
        ensures seen { IsFront (seen_of pass.old) (seen_of pass.new) × (mine_of pass.new ≡ mine_of pass.old) }
        ensures length { result.0 ≡ length (seen_of pass.new) }
        ensures glance { result.1 ≡ M.glance_of self.now.machine (replay (M.after self.now.machine) (start_of self.now) (seen_of pass.new)) }
    {
        let body = self.enter(rt, pass);
        let answer = (body.len(), self.machine.glance(&body.state));
        self.leave(pass, body);
        answer
    }

    // Waits for the turn, and takes the body out.
    fn enter<R: Wait>(&self, rt: &R, pass: &mut Pass<M>) -> Body<M::State, M::Entry>
        requires { IsPassOf self.now pass.old }
        ensures turn { HasTurn self.now pass.new × (pass.new.caller ≡ pass.old.caller) }
        ensures seen { IsFront (seen_of pass.old) (seen_of pass.new) × (mine_of pass.new ≡ mine_of pass.old) }
        ensures own { KnowsOwn M.caller_of pass.new }
        ensures body { (result.history.items ≡ seen_of pass.new) × Stands M.fit M.after self.now result }
    {
        let words = &self.lock.shared;
        let ticket = words.fetch_add::<Draw>(&mut pass.place, 0, 1);
        let mut waiting = Waiting::new();
        for _ in rt.forever() {
            let served = words.load::<Await<M>>(&mut pass.place, 1);
            if served == ticket {
                return words.exchange(&mut pass.place, 0, None).unwrap();
            }
            waiting.pause(rt, &self.lock, served);
        }
        unreachable!()
    }

    // Puts the body back, and gives the turn on.
    fn leave(&self, pass: &mut Pass<M>, body: Body<M::State, M::Entry>)
        requires turn { HasTurn self.now pass.old }
        requires own { KnowsOwn M.caller_of pass.old }
        requires body { Continues M.caller_of pass.old.caller (seen_of pass.old) body.history.items × Stands M.fit M.after self.now body }
        ensures pass { IsPassOf self.now pass.new × (pass.new.caller ≡ pass.old.caller) }
        ensures seen { seen_of pass.new ≡ body.history.items }
        ensures mine { mine_of pass.new ≡ mine_of pass.old ++ drop (length (seen_of pass.old)) body.history.items }
        ensures own { KnowsOwn M.caller_of pass.new }
    {
        let words = &self.lock.shared;
        words.exchange(&mut pass.place, 0, Some(body));
        let served = words.fetch_add::<Serve>(&mut pass.place, 1, 1);
        wake_next(&self.lock, served);
    }
}
