// One turn of the engine.
ghost use Rattle.std.specs.Prelude.{◌≡◌, ◌<◌, ◌≤◌, ◌^◌, List, IfOk, OnOk};
ghost use Rattle.run_meaning.specs.Runs.{begun_by};
ghost use Rattle.run_meaning.specs.Turns.{Begun};
ghost use Rattle.turn_engine.specs.Midst.{IsOpen, basis_at, read_at};
ghost use Rattle.turn_engine.specs.Ready.{IsReady, running};
ghost use Rattle.turn_engine.specs.Stages.{TellsTurn, stage_of};

use crate::callers::round_of;
use crate::moments::later_of;
use crate::settling::settle;
use crate::state::EngineState;
use crate::turn_out::TurnOut;
use post_turn::Gate;
use site_base::{Moment, OutOfMemory};
use site_edge::Turn;
use site_posts::round_one;
use std::sync::Wait;
use std::thread::Threads;
use turn_deal::{Dealt, deal, deal_by_many};

/// Takes a turn by one worker: its lines, the reports of its orders and the ticks of problems make a round, after which checks are ordered.
pub(crate) fn take_alone(state: &mut EngineState, turn: &Turn) -> Result<TurnOut, OutOfMemory>
    requires ready { IsReady state.old }
    requires few { state.old.turns < 2 ^ 40 }
    ensures takes { (begun : List Begun) →
        IfOk result (λ out. TellsTurn (basis_at state.old) 1 (stage_of (running state.old) begun) (read_at state.old turn.now) out (stage_of (running state.new) (begun_by (stage_of (running state.old) begun) state.new.moment))) }
    ensures ready { OnOk result (IsReady state.new) }
    ensures site { OnOk result (state.new.site ≡ state.old.site) }
    ensures zone { OnOk result (state.new.zone ≡ state.old.zone) }
{
    let (moment, dealt) = deal_turn(state, turn)?;
    let acts = dealt.acts.for_one()?;
    let segments = round_one(
        state.alloc,
        &state.site,
        &state.graph,
        &state.zone,
        &mut state.books,
        moment,
        acts,
    )?;
    settle(state, moment, dealt.refusals, segments)
}

/// Takes a turn by so many workers, each of which takes its share of it at the same time as the others.
pub(crate) fn take_by_many<R: Wait + Threads + Sync, G: Gate + Sync>(
    rt: &R,
    state: &mut EngineState,
    turn: &Turn,
    workers: u32,
    gate: &G,
) -> Result<TurnOut, OutOfMemory>
    requires ready { IsReady state.old }
    requires few { state.old.turns < 2 ^ 40 }
    requires workers { (1 ≤ workers) × (workers ≤ 64) }
    ensures takes { (begun : List Begun) →
        IfOk result (λ out. TellsTurn (basis_at state.old) workers (stage_of (running state.old) begun) (read_at state.old turn.now) out (stage_of (running state.new) (begun_by (stage_of (running state.old) begun) state.new.moment))) }
    ensures ready { OnOk result (IsReady state.new) }
    ensures site { OnOk result (state.new.site ≡ state.old.site) }
    ensures zone { OnOk result (state.new.zone ≡ state.old.zone) }
{
    let (moment, dealt) = deal_turn_by_many(rt, state, turn, workers)?;
    let lists = dealt.acts.for_many(state.alloc, workers)?;
    let segments = round_of(
        rt,
        state.alloc,
        &state.site,
        &state.graph,
        &state.zone,
        &mut state.books,
        moment,
        lists,
        gate,
    )?;
    settle(state, moment, dealt.refusals, segments)
}

/// Deals a turn: takes the reports of its orders, and gives its moment, with the acts of its round and what is refused.
pub(crate) fn deal_turn(
    state: &mut EngineState,
    turn: &Turn,
) -> Result<(Moment, Dealt), OutOfMemory>
    requires { IsReady state.old }
    ensures { IfOk result (λ r. IsOpen state.old turn.now r.0 r.1 state.new) }
{
    let moment = later_of(state.moment, turn.moment);
    let dealt = deal(
        state.alloc,
        &state.site,
        &mut state.plan,
        &state.problems,
        state.not_started.as_slice(),
        turn,
        moment,
    )?;
    Ok((moment, dealt))
}

/// Deals a turn as [`deal_turn`] does. So many threads at most read its lines.
fn deal_turn_by_many<R: Threads + Sync>(
    rt: &R,
    state: &mut EngineState,
    turn: &Turn,
    threads: u32,
) -> Result<(Moment, Dealt), OutOfMemory>
    requires ready { IsReady state.old }
    requires threads { 1 ≤ threads }
    ensures { IfOk result (λ r. IsOpen state.old turn.now r.0 r.1 state.new) }
{
    let moment = later_of(state.moment, turn.moment);
    let dealt = deal_by_many(
        rt,
        state.alloc,
        &state.site,
        &mut state.plan,
        &state.problems,
        state.not_started.as_slice(),
        turn,
        moment,
        threads,
    )?;
    Ok((moment, dealt))
}
