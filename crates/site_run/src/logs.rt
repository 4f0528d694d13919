// The log of a world's turns over a site.
ghost use Rattle.std.specs.Prelude.{◌≡◌, ◌≢◌, ◌≤◌, ◌+◌, ◌^◌, [], false, Err, OnOk, OnErr, IsErrOf};
ghost use Rattle.std.specs.List.{concat};
ghost use Rattle.run_meaning.specs.Runs.{start};
ghost use Rattle.run_meaning.specs.Turns.{Histories};
ghost use Rattle.run_text.specs.LogText.{first_lines};
ghost use Rattle.site_edge.specs.Lists.{Adds, AddsPart};
ghost use Rattle.site_edge.specs.Told.{Rose};
ghost use Rattle.site_model.specs.PlainSite.{site_view};
ghost use Rattle.site_model.specs.Sound.{IsSound};
ghost use Rattle.turn_engine.specs.Ready.{IsZoneOf};
ghost use Rattle.turn_engine.specs.Stages.{stage_of};
ghost use Rattle.site_run.specs.Callers.{AreCallers};
ghost use Rattle.site_run.specs.Ends.{HandsOn, outside};
ghost use Rattle.site_run.specs.Logs.{AnswersWorld, EndsRun, Went, given_by};

use crate::driving::drive_part;
use crate::feed::Feed;
use crate::status::Status;
use crate::workers::Workers;
use log_text::version_line;
use run_text::Style;
use site_edge::{Sink, SinkFault, World};
use std::alloc::Global;
use turn_engine::Engine;

/// Writes the log of the world's turns by an engine before its first turn, whose events these workers take, and lets the world start the
/// checks that they order. The lines of the feed stand before a turn's own. What was kept back before is handed on first.
///
/// The engine isn't spent, its turns and the limit are together at most 2^40, its site is sound, and the feed is made for it. The workers are
/// 1 to 64.
///
/// It ends as [`crate::drive_part`] does over these turns, of which it takes no more than the limit; with `WriteFault` or
/// `OutOfMemory` it may have come to no turn.
pub fn write_log<W: World, S: Sink, F: Feed, C: Workers>(
    alloc: Global,
    workers: &C,
    style: Style,
    engine: &mut Engine,
    feed: &mut F,
    world: &mut W,
    out: &mut S,
    limit: u64,
) -> Status
    requires callers { AreCallers (C.callers workers.now) }
    requires apt { C.apt workers.now }
    requires fresh { engine.old.spent ≡ false }
    requires few { engine.old.run.turns + limit ≤ 2 ^ 40 }
    requires sound { IsSound (site_view engine.old.run.site) }
    requires zone { IsZoneOf (site_view engine.old.run.site).zone engine.old.run.zone }
    requires made { F.made_for feed.old (site_view engine.old.run.site) }
    ensures went { (histories : Histories) → stage_of engine.old.run [] ≡ start (site_view engine.old.run.site) histories →
        Went result (C.callers workers.now) style limit (site_view engine.old.run.site) (given_by histories F.gives F.after feed.old) (outside (W.turns world.old) (W.started world.old) (W.calls world.old) (S.written out.old) (S.kept_back out.old)) (outside (W.turns world.new) (W.started world.new) (W.calls world.new) (S.written out.new) (S.kept_back out.new)) }
    ensures written { (histories : Histories) → stage_of engine.old.run [] ≡ start (site_view engine.old.run.site) histories →
        EndsRun result (AnswersWorld (C.callers workers.now) style limit (given_by histories F.gives F.after feed.old) (W.turns world.old) (site_view engine.old.run.site)) (S.written out.old) (S.written out.new) }
    ensures through { HandsOn result (S.kept_back out.new) }
    ensures never_usage { result ≢ Status.Usage }
    ensures never_illegal { result ≢ Status.NotLegal }
    ensures no_read_fault { result ≢ Status.ReadFault }
    ensures never_diagnosed { result ≢ Status.Diagnosed }
    ensures write_fault { result ≡ Status.WriteFault → Rose (S.faults out.old) (S.faults out.new) }
    ensures world_fault { result ≡ Status.WorldFault → Rose (W.faults world.old) (W.faults world.new) }
    ensures calm_sink { S.calm out.old → result ≢ Status.WriteFault }
    ensures calm_world { W.calm world.old → result ≢ Status.WorldFault }
{
    match begin_log(style, out) {
        Ok(()) => drive_part(alloc, engine, world, out, feed, workers, style, limit),
        Err(SinkFault::Failed) => Status::WriteFault,
        Err(SinkFault::OutOfMemory) => Status::OutOfMemory,
    }
}

/// Writes what stands before the first turn, and hands it on.
#[tactic(auto, using(crate::proofs::Adding::adds_same, crate::proofs::Adding::part_same))]
fn begin_log<S: Sink>(style: Style, out: &mut S) -> Result<(), SinkFault>
    ensures ok { OnOk result (Adds (concat (first_lines style)) (S.written out.old) (S.written out.new)) }
    ensures through { OnOk result (S.kept_back out.new ≡ 0) }
    ensures err { OnErr result (AddsPart (concat (first_lines style)) (S.written out.old) (S.written out.new)) }
    ensures cause { IsErrOf result SinkFault.Failed → Rose (S.faults out.old) (S.faults out.new) }
    ensures counts { S.faults out.old ≤ S.faults out.new }
    ensures calm { S.calm out.old → S.calm out.new }
    ensures unfailing { S.calm out.old → result ≢ Err SinkFault.Failed }
{
    match style {
        Style::One => out.flush(),
        Style::Two => {
            out.put(version_line().as_bytes())?;
            out.flush()
        }
    }
}
