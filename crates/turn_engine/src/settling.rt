// What follows the round of a turn.
ghost use Rattle.std.specs.Prelude.{◌≡◌, ℕ, List, Vec, IfOk, OnOk};
ghost use Rattle.std.specs.declared.alloc.Global.{Global};
ghost use Rattle.check_plan.specs.Plans.{Plan};
ghost use Rattle.checkable_core.specs.Contents.{Contents};
ghost use Rattle.run_meaning.specs.Runs.{begun_by};
ghost use Rattle.run_meaning.specs.Turns.{Begun};
ghost use Rattle.site_edge.specs.declared.turn.Turn.{Turn};
ghost use Rattle.turn_engine.specs.Midst.{CanSettle, IsRounded, basis_at, begun_with, read_at};
ghost use Rattle.turn_engine.specs.Ready.{IsReady, running};
ghost use Rattle.turn_engine.specs.Stages.{TellsTurn, stage_of};

use crate::starting::start;
use crate::state::EngineState;
use crate::turn_out::TurnOut;
use site_base::{Moment, OutOfMemory};
use site_posts::{Segments, Setting};
use turn_deal::Refusal;

/// Settles a turn whose round is made, whoever made it: orders checks, follows the problems that last, and gives what the turn tells. The
/// books have the entries of the round.
pub(crate) fn settle(
    state: &mut EngineState,
    moment: Moment,
    refusals: Vec<Refusal>,
    segments: Segments,
) -> Result<TurnOut, OutOfMemory>
    requires { CanSettle moment segments state.old }
    ensures takes { (plan : Plan) (books : Vec Contents Global) (callers : ℕ) (turn : Turn) (begun : List Begun) → IsRounded (begun_with plan books state.old) callers turn moment refusals.items segments state.old.plan state.old.books.items →
        IfOk result (λ out. TellsTurn (basis_at state.old) callers (stage_of (running (begun_with plan books state.old)) begun) (read_at state.old turn) out (stage_of (running state.new) (begun_by (stage_of (running (begun_with plan books state.old)) begun) state.new.moment))) }
    ensures ready { (plan : Plan) (books : Vec Contents Global) (callers : ℕ) (turn : Turn) → IsRounded (begun_with plan books state.old) callers turn moment refusals.items segments state.old.plan state.old.books.items →
        OnOk result (IsReady state.new) }
    ensures segments { IfOk result (λ out. out.segments ≡ segments) }
    ensures site { OnOk result (state.new.site ≡ state.old.site) }
    ensures zone { OnOk result (state.new.zone ≡ state.old.zone) }
{
    let setting = Setting {
        alloc: state.alloc,
        site: &state.site,
        graph: &state.graph,
        zone: &state.zone,
        moment,
    };
    let ordered = state
        .plan
        .after_round(&setting, state.books.as_slice(), segments.as_slice())?;
    state
        .problems
        .follow(state.books.as_slice(), segments.as_slice())?;
    let started = start(state.alloc, &state.site, ordered.as_slice())?;
    state.not_started = started.not_started;
    state.turns += 1;
    state.moment = moment;
    Ok(TurnOut {
        number: state.turns,
        moment,
        refusals,
        segments,
        orders: started.orders,
    })
}
