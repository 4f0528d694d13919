// One turn of a run.
ghost use Rattle.std.specs.Prelude.{◌≡◌, ◌≢◌, ◌<◌, ◌≤◌, ◌^◌, ◌∷◌, List, [], length, false, Err, OnOk, OnErr, IfErr};
ghost use Rattle.site_edge.specs.Lists.{Adds, AddsPart};
ghost use Rattle.site_edge.specs.Told.{Rose};
ghost use Rattle.site_model.specs.PlainSite.{site_view};
ghost use Rattle.site_model.specs.Sound.{IsSound};
ghost use Rattle.run_meaning.specs.Turns.{Begun};
ghost use Rattle.turn_engine.specs.Stages.{stage_from};
ghost use Rattle.site_run.specs.Callers.{AreCallers};
ghost use Rattle.site_run.specs.Courses.{course_of};
ghost use Rattle.site_run.specs.Ends.{IsGone, StopsTurn, outside};
ghost use Rattle.site_run.specs.Feeds.{feed_after};
ghost use Rattle.site_run.specs.Starts.{calls_with};

use crate::feed::Feed;
use crate::stop::Stop;
use crate::taking::take;
use crate::workers::Workers;
use run_text::{Style, write_lines};
use site_edge::{Order, Sink, Turn, World};
use std::alloc::Global;
use turn_engine::Engine;

/// Takes a turn, writes its lines and hands them on, and then starts its orders.
pub(crate) fn drive_turn<W: World, S: Sink, F: Feed, C: Workers>(
    alloc: Global,
    engine: &mut Engine,
    world: &mut W,
    out: &mut S,
    feed: &mut F,
    workers: &C,
    style: Style,
    turn: Turn,
) -> Result<(), Stop>
    requires callers { AreCallers (C.callers workers.now) }
    requires apt { C.apt workers.now }
    requires fresh { engine.old.spent ≡ false }
    requires few { engine.old.run.turns < 2 ^ 40 }
    requires sound { IsSound (site_view engine.old.run.site) }
    requires made { F.made_for feed.old (site_view engine.old.run.site) }
    ensures goes { (begun : List Begun) (first : F) → feed.old ≡ feed_after F.after first begun →
        OnOk result (IsGone (C.callers workers.now) (course_of engine.old.run begun style F.gives F.after first) turn (stage_from engine.old.run begun engine.new.run) (outside (W.turns world.old) (W.started world.old) (W.calls world.old) (S.written out.old) (S.kept_back out.old)) (outside (W.turns world.new) (W.started world.new) (W.calls world.new) (S.written out.new) (S.kept_back out.new))) }
    ensures stops { (begun : List Begun) (first : F) → feed.old ≡ feed_after F.after first begun →
        IfErr result (λ stop. StopsTurn (C.callers workers.now) (course_of engine.old.run begun style F.gives F.after first) turn stop (outside (W.turns world.old) (W.started world.old) (W.calls world.old) (S.written out.old) (S.kept_back out.old)) (outside (W.turns world.new) (W.started world.new) (W.calls world.new) (S.written out.new) (S.kept_back out.new))) }
    ensures feed { OnOk result (feed.new ≡ F.after feed.old engine.old.run.histories engine.new.run.moment) }
    ensures made { OnOk result (F.made_for feed.new (site_view engine.old.run.site)) }
    ensures site { OnOk result (engine.new.run.site ≡ engine.old.run.site) }
    ensures zone { OnOk result (engine.new.run.zone ≡ engine.old.run.zone) }
    ensures fresh { OnOk result (engine.new.spent ≡ false) }
    ensures sink_cause { result ≡ Err Stop.Sink → Rose (S.faults out.old) (S.faults out.new) }
    ensures sink_counts { S.faults out.old ≤ S.faults out.new }
    ensures sink_calm { S.calm out.old → S.calm out.new }
    ensures sink_unfailing { S.calm out.old → result ≢ Err Stop.Sink }
    ensures world_cause { result ≡ Err Stop.World → Rose (W.faults world.old) (W.faults world.new) }
    ensures world_counts { W.faults world.old ≤ W.faults world.new }
    ensures world_calm { W.calm world.old → W.calm world.new }
    ensures world_unfailing { W.calm world.old → result ≢ Err Stop.World }
{
    let taken = take(alloc, engine, feed, workers, style, turn)?;
    write_lines(out, taken.lines.as_slice())?;
    start(world, taken.orders.as_slice())
}

/// Starts the orders by one call, if there are any.
#[tactic(auto, using(crate::proofs::Adding::no_call, crate::proofs::Adding::one_call))]
fn start<W: World>(world: &mut W, orders: &[Order]) -> Result<(), Stop>
    ensures ok { OnOk result (Adds orders.now (W.started world.old) (W.started world.new)) }
    ensures once { OnOk result (Adds (calls_with orders.now) (W.calls world.old) (W.calls world.new)) }
    ensures err { OnErr result (AddsPart orders.now (W.started world.old) (W.started world.new)) }
    ensures tried { OnErr result (AddsPart (orders.now ∷ []) (W.calls world.old) (W.calls world.new)) }
    ensures some { OnErr result (1 ≤ length orders.now) }
    ensures same { W.turns world.new ≡ W.turns world.old }
    ensures never_sink { result ≢ Err Stop.Sink }
    ensures cause { result ≡ Err Stop.World → Rose (W.faults world.old) (W.faults world.new) }
    ensures counts { W.faults world.old ≤ W.faults world.new }
    ensures calm { W.calm world.old → W.calm world.new }
    ensures unfailing { W.calm world.old → result ≢ Err Stop.World }
{
    if orders.is_empty() {
        return Ok(());
    }
    world.start(orders)?;
    Ok(())
}
