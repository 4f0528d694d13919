// A turn whose round is told.
ghost use Rattle.std.specs.Prelude.{◌≡◌, ◌<◌, ◌≤◌, ◌^◌, List, IfOk, IfSome, MatchOption, OnOk};
ghost use Rattle.run_meaning.specs.Runs.{begun_by};
ghost use Rattle.run_meaning.specs.Turns.{Begun};
ghost use Rattle.turn_engine.specs.Midst.{basis_at, read_at};
ghost use Rattle.turn_engine.specs.Ready.{IsReady, running};
ghost use Rattle.turn_engine.specs.Stages.{stage_of};
ghost use Rattle.turn_engine.specs.Told.{IsNoTurn, IsOnlyTurn};

use crate::settling::settle;
use crate::state::EngineState;
use crate::turn_out::TurnOut;
use crate::turns::deal_turn;
use round_check::{Told, round_given};
use site_base::OutOfMemory;
use site_edge::Turn;

/// Takes a turn of so many callers by what is told of its round. `None` if there is no such round.
pub(crate) fn take_given(
    state: &mut EngineState,
    turn: &Turn,
    callers: u32,
    told: Vec<Told>,
) -> Result<Option<TurnOut>, OutOfMemory>
    requires ready { IsReady state.old }
    requires few { state.old.turns < 2 ^ 40 }
    requires callers { 1 ≤ callers }
    ensures takes { (begun : List Begun) →
        IfOk result (λ r. MatchOption r (IsNoTurn (basis_at state.old) callers (stage_of (running state.old) begun) (read_at state.old turn.now) told.items)
        (λ out. IsOnlyTurn (basis_at state.old) callers (stage_of (running state.old) begun) (read_at state.old turn.now) told.items out (stage_of (running state.new) (begun_by (stage_of (running state.old) begun) state.new.moment)))) }
    ensures ready { IfOk result (λ r. IfSome r (λ _. IsReady state.new)) }
    ensures site { OnOk result (state.new.site ≡ state.old.site) }
    ensures zone { OnOk result (state.new.zone ≡ state.old.zone) }
{
    let (moment, dealt) = deal_turn(state, turn)?;
    let lists = dealt.acts.for_many(state.alloc, callers)?;
    let Some(segments) = round_given(
        state.alloc,
        &state.site,
        &state.graph,
        &state.zone,
        &mut state.books,
        moment,
        lists.as_slice(),
        told,
    )?
    else {
        return Ok(None);
    };
    Ok(Some(settle(state, moment, dealt.refusals, segments)?))
}
