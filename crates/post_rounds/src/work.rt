// What callers do at the same time.
ghost use Rattle.std.specs.Prelude.{◌≡◌, All, map, IfOk, Ok};
ghost use Rattle.std.specs.List.{AllZip};

use post_turn::Gate;
use site_base::OutOfMemory;
use std::alloc::Global;
use std::sync::Wait;
use std::thread;
use std::thread::Threads;

/// What callers do, each by itself.
pub trait Work: Sync {
    /// A caller, with what it brings.
    type Caller: Drop + Send;

    /// What it gives back.
    type Hand: Drop + Send;

    /// Which callers may begin.
    ghost ready: { Self → Self.Caller → Type 0 };

    /// What a caller gives back that has done all.
    ghost ended: { Self → Self.Caller → Self.Hand → Type 0 };

    /// Whether it has nothing to do.
    fn is_idle(&self, caller: &Self::Caller) -> bool;

    /// Does all that a caller has to do. Fails for want of memory alone.
    fn work<R: Wait, G: Gate>(
        &self,
        rt: &R,
        gate: &G,
        caller: Self::Caller,
    ) -> Result<Self::Hand, OutOfMemory>
        requires { ready self.now caller }
        ensures { IfOk result (ended self.now caller) };
}

/// Has all callers do their work at the same time, each in a thread of its own where one can be made, and gives back what they
/// give, in their order. Where no more than one has anything to do, no thread is made.
///
/// # Errors
///
/// `OutOfMemory` if there is none for the answer, or for what a caller does.
pub fn all_at_once<W: Work, R: Wait + Threads + Sync, G: Gate + Sync>(
    rt: &R,
    alloc: Global,
    work: &W,
    gate: &G,
    callers: Vec<W::Caller>,
) -> Result<Vec<W::Hand>, OutOfMemory>
    requires { All (W.ready work.now) callers.items }
    ensures { IfOk result (λ hands. AllZip (W.ended work.now) callers.items hands.items) }
{
    if !are_many(work, callers.as_slice()) {
        return one_by_one(rt, alloc, work, gate, callers);
    }
    let way = |caller: W::Caller| -> Result<W::Hand, OutOfMemory>
        requires { W.ready work.now caller }
        ensures { IfOk result (W.ended work.entry.now caller) }
    { work.work(rt, gate, caller) };
    let answers = thread::map_vec(rt, callers, &way)?;
    all_or_none(alloc, answers)
}

/// Whether more than one has something to do.
fn are_many<W: Work>(work: &W, callers: &[W::Caller]) -> bool {
    let mut one = false;
    for caller in callers {
        if !work.is_idle(caller) {
            if one {
                return true;
            }
            one = true;
        }
    }
    false
}

/// Has callers do their work one after another, in this thread.
fn one_by_one<W: Work, R: Wait, G: Gate>(
    rt: &R,
    alloc: Global,
    work: &W,
    gate: &G,
    callers: Vec<W::Caller>,
) -> Result<Vec<W::Hand>, OutOfMemory>
    requires { All (W.ready work.now) callers.items }
    ensures { IfOk result (λ hands. AllZip (W.ended work.now) callers.items hands.items) }
{
    let mut hands = Vec::with_capacity(alloc, callers.len())?;
    for caller in callers {
        let hand = work.work(rt, gate, caller)?;
        hands.push(hand)?;
    }
    Ok(hands)
}

/// What all answers give, or the want of memory that one of them tells.
fn all_or_none<T: Drop>(
    alloc: Global,
    answers: Vec<Result<T, OutOfMemory>>,
) -> Result<Vec<T>, OutOfMemory>
    ensures { IfOk result (λ all. map (λ x. Ok x) all.items ≡ answers.items) }
{
    let mut all = Vec::with_capacity(alloc, answers.len())?;
    for answer in answers {
        all.push(answer?)?;
    }
    Ok(all)
}
