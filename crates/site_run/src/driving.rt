// The turns of a run, one after another.
ghost use Rattle.std.specs.Prelude.{◌≡◌, ◌≢◌, ◌≤◌, ◌+◌, ◌^◌, [], false};
ghost use Rattle.site_edge.specs.Told.{Rose};
ghost use Rattle.site_model.specs.PlainSite.{site_view};
ghost use Rattle.site_model.specs.Sound.{IsSound};
ghost use Rattle.site_run.specs.Callers.{AreCallers};
ghost use Rattle.site_run.specs.Courses.{course_of};
ghost use Rattle.site_run.specs.Ends.{Ends, Stands, ended, outside};

use crate::feed::Feed;
use crate::status::Status;
use crate::stop::Stop;
use crate::turning::drive_turn;
use crate::workers::{OneWorker, Workers};
use run_text::Style;
use site_edge::{Sink, World};
use std::alloc::Global;
use turn_engine::Engine;

/// Takes the turns of a world with one worker, as [`drive_part`] does with [`OneWorker`].
pub fn drive_part_one<W: World, S: Sink, F: Feed>(
    alloc: Global,
    engine: &mut Engine,
    world: &mut W,
    out: &mut S,
    feed: &mut F,
    style: Style,
    limit: u64,
) -> Status
    requires fresh { engine.old.spent ≡ false }
    requires few { engine.old.run.turns + limit ≤ 2 ^ 40 }
    requires sound { IsSound (site_view engine.old.run.site) }
    requires made { F.made_for feed.old (site_view engine.old.run.site) }
    ensures ends { let c = course_of engine.old.run [] style F.gives F.after feed.old in
        Ends result 1 c limit (λ done logs. Stands c F.after feed.old done logs engine.new feed.new) (outside (W.turns world.old) (W.started world.old) (W.calls world.old) (S.written out.old) (S.kept_back out.old)) (outside (W.turns world.new) (W.started world.new) (W.calls world.new) (S.written out.new) (S.kept_back out.new)) }
    ensures site { result ≡ Status.Done → engine.new.run.site ≡ engine.old.run.site }
    ensures zone { result ≡ Status.Done → engine.new.run.zone ≡ engine.old.run.zone }
    ensures made { result ≡ Status.Done → F.made_for feed.new (site_view engine.old.run.site) }
    ensures write_fault { result ≡ Status.WriteFault → Rose (S.faults out.old) (S.faults out.new) }
    ensures world_fault { result ≡ Status.WorldFault → Rose (W.faults world.old) (W.faults world.new) }
    ensures calm_sink { S.calm out.old → result ≢ Status.WriteFault }
    ensures calm_world { W.calm world.old → result ≢ Status.WorldFault }
    ensures sink_counts { S.faults out.old ≤ S.faults out.new }
    ensures sink_calm { S.calm out.old → S.calm out.new }
    ensures world_counts { W.faults world.old ≤ W.faults world.new }
    ensures world_calm { W.calm world.old → W.calm world.new }
{
    drive_part(alloc, engine, world, out, feed, &OneWorker, style, limit)
}

/// Takes the turns of a world, one after another, whose events these workers take. Of each it writes the lines in a version of the log,
/// hands them on, and then starts the orders that have words by one call, before it takes the next one. The lines of the feed stand before
/// a turn's own; [`crate::NoFeed`] has none. The line `log 2` isn't written.
///
/// The workers are 1 to 64. The engine isn't spent, its turns and the limit are together at most 2^40, its site is sound, and the feed is
/// made for it.
///
/// It ends with `Done` after the last turn, and then the engine and the feed are as all of them leave them; with `TurnsSpent` if one more
/// came than the limit; with `WriteFault` if a line could not be written or handed on; with `WorldFault` if the world could give no
/// turn or take no orders; and with `OutOfMemory`. After another status than `Done` the engine may be spent, and nothing is said of the feed.
pub fn drive_part<W: World, S: Sink, F: Feed, C: Workers>(
    alloc: Global,
    engine: &mut Engine,
    world: &mut W,
    out: &mut S,
    feed: &mut F,
    workers: &C,
    style: Style,
    limit: u64,
) -> Status
    requires callers { AreCallers (C.callers workers.now) }
    requires apt { C.apt workers.now }
    requires fresh { engine.old.spent ≡ false }
    requires few { engine.old.run.turns + limit ≤ 2 ^ 40 }
    requires sound { IsSound (site_view engine.old.run.site) }
    requires made { F.made_for feed.old (site_view engine.old.run.site) }
    ensures ends { let c = course_of engine.old.run [] style F.gives F.after feed.old in
        Ends result (C.callers workers.now) c limit (λ done logs. Stands c F.after feed.old done logs engine.new feed.new) (outside (W.turns world.old) (W.started world.old) (W.calls world.old) (S.written out.old) (S.kept_back out.old)) (outside (W.turns world.new) (W.started world.new) (W.calls world.new) (S.written out.new) (S.kept_back out.new)) }
    ensures site { result ≡ Status.Done → engine.new.run.site ≡ engine.old.run.site }
    ensures zone { result ≡ Status.Done → engine.new.run.zone ≡ engine.old.run.zone }
    ensures made { result ≡ Status.Done → F.made_for feed.new (site_view engine.old.run.site) }
    ensures write_fault { result ≡ Status.WriteFault → Rose (S.faults out.old) (S.faults out.new) }
    ensures world_fault { result ≡ Status.WorldFault → Rose (W.faults world.old) (W.faults world.new) }
    ensures calm_sink { S.calm out.old → result ≢ Status.WriteFault }
    ensures calm_world { W.calm world.old → result ≢ Status.WorldFault }
    ensures sink_counts { S.faults out.old ≤ S.faults out.new }
    ensures sink_calm { S.calm out.old → S.calm out.new }
    ensures world_counts { W.faults world.old ≤ W.faults world.new }
    ensures world_calm { W.calm world.old → W.calm world.new }
{
    match drive_turns(alloc, engine, world, out, feed, workers, style, limit) {
        Ok(status) => status,
        Err(stop) => stop.status(),
    }
}

/// Takes the turns of a world, and tells with which status the run ends, or why it stops.
fn drive_turns<W: World, S: Sink, F: Feed, C: Workers>(
    alloc: Global,
    engine: &mut Engine,
    world: &mut W,
    out: &mut S,
    feed: &mut F,
    workers: &C,
    style: Style,
    limit: u64,
) -> Result<Status, Stop>
    requires callers { AreCallers (C.callers workers.now) }
    requires apt { C.apt workers.now }
    requires fresh { engine.old.spent ≡ false }
    requires few { engine.old.run.turns + limit ≤ 2 ^ 40 }
    requires sound { IsSound (site_view engine.old.run.site) }
    requires made { F.made_for feed.old (site_view engine.old.run.site) }
    ensures ends { let c = course_of engine.old.run [] style F.gives F.after feed.old in
        Ends (ended result) (C.callers workers.now) c limit (λ done logs. Stands c F.after feed.old done logs engine.new feed.new) (outside (W.turns world.old) (W.started world.old) (W.calls world.old) (S.written out.old) (S.kept_back out.old)) (outside (W.turns world.new) (W.started world.new) (W.calls world.new) (S.written out.new) (S.kept_back out.new)) }
    ensures site { ended result ≡ Status.Done → engine.new.run.site ≡ engine.old.run.site }
    ensures zone { ended result ≡ Status.Done → engine.new.run.zone ≡ engine.old.run.zone }
    ensures made { ended result ≡ Status.Done → F.made_for feed.new (site_view engine.old.run.site) }
    ensures write_fault { ended result ≡ Status.WriteFault → Rose (S.faults out.old) (S.faults out.new) }
    ensures world_fault { ended result ≡ Status.WorldFault → Rose (W.faults world.old) (W.faults world.new) }
    ensures calm_sink { S.calm out.old → ended result ≢ Status.WriteFault }
    ensures calm_world { W.calm world.old → ended result ≢ Status.WorldFault }
    ensures sink_counts { S.faults out.old ≤ S.faults out.new }
    ensures sink_calm { S.calm out.old → S.calm out.new }
    ensures world_counts { W.faults world.old ≤ W.faults world.new }
    ensures world_calm { W.calm world.old → W.calm world.new }
{
    for _ in 0..limit {
        let Some(turn) = world.next()? else {
            return Ok(Status::Done);
        };
        drive_turn(alloc, engine, world, out, feed, workers, style, turn)?;
    }
    match world.next()? {
        Some(_) => Ok(Status::TurnsSpent),
        None => Ok(Status::Done),
    }
}
