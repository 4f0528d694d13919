// The log of a site.
ghost use Rattle.std.specs.Prelude.{◌≡◌, ◌≢◌, ◌<◌, ◌≤◌, ◌+◌, ◌-◌, ◌^◌, [], Bool, true, false, length, All, MatchOption};
ghost use Rattle.depend_graph.specs.Cycles.{IsOnCycle};
ghost use Rattle.run_meaning.specs.Runs.{start};
ghost use Rattle.run_meaning.specs.Turns.{Histories};
ghost use Rattle.site_edge.specs.Told.{Rose};
ghost use Rattle.site_model.specs.PlainSite.{site_view};
ghost use Rattle.site_model.specs.Sound.{IsSound};
ghost use Rattle.site_posts.specs.Books.{histories_of};
ghost use Rattle.time_range.specs.Zone.{IsBadFile};
ghost use Rattle.turn_engine.specs.Checkables.{AreOf};
ghost use Rattle.turn_engine.specs.Ready.{IsZoneOf};
ghost use Rattle.turn_engine.specs.Stages.{stage_of};
ghost use Rattle.site_run.specs.Callers.{AreCallers};
ghost use Rattle.site_run.specs.Ends.{HandsOn, outside};
ghost use Rattle.site_run.specs.Logs.{EndsRun};
ghost use Rattle.whole_runs.specs.Logs.{AnswersTurns, WentOver};

use crate::feeding::RecurFeed;
use checkable_core::Checkable;
use run_text::Style;
use site_edge::{Sink, World};
use site_model::Site;
use site_run::{NoFeed, Status, Workers, write_log};
use std::alloc::Global;
use turn_engine::{Engine, zone_of};

/// Writes the log of the world's turns over a site, whose events these workers take, and lets the world start the checks that they
/// order. The books are its checkables with the entries so far, one each by index. If its downtimes recur, the lines of `ScheduledDowntime`
/// objects stand before a turn's own.
///
/// The site is one that an engine can be made of, the workers are 1 to 64, and the limit is at most 2^40. What was kept back before is
/// handed on first.
///
/// It ends as `drive_part` (site_run) does over these turns, of which it takes no more than the limit; with `WriteFault` or
/// `OutOfMemory` it may have come to no turn.
pub fn write_site_log<W: World, S: Sink, C: Workers>(
    alloc: Global,
    workers: &C,
    style: Style,
    recur: bool,
    site: Site,
    books: Vec<Checkable>,
    world: &mut W,
    out: &mut S,
    limit: u64,
) -> Status
    requires callers { AreCallers (C.callers workers.now) }
    requires apt { C.apt workers.now }
    requires sound { IsSound (site_view site) }
    requires few { length (site_view site).checkables < 2 ^ 32 - 1 }
    requires free { All (λ d. IsOnCycle (site_view site) d → ⊥) (site_view site).depends }
    requires zone { MatchOption (site_view site).zone (Unit {0}) (λ bytes. IsBadFile bytes → ⊥) }
    requires limit { limit ≤ 2 ^ 40 }
    requires books { AreOf (site_view site) books.items }
    ensures went { WentOver result (C.callers workers.now) style recur limit (site_view site) (histories_of books.items) (outside (W.turns world.old) (W.started world.old) (W.calls world.old) (S.written out.old) (S.kept_back out.old)) (outside (W.turns world.new) (W.started world.new) (W.calls world.new) (S.written out.new) (S.kept_back out.new)) }
    ensures written { EndsRun result (AnswersTurns (C.callers workers.now) style recur limit (W.turns world.old) (site_view site) (histories_of books.items)) (S.written out.old) (S.written out.new) }
    ensures through { HandsOn result (S.kept_back out.new) }
    ensures never_usage { result ≢ Status.Usage }
    ensures never_illegal { result ≢ Status.NotLegal }
    ensures no_read_fault { result ≢ Status.ReadFault }
    ensures never_diagnosed { result ≢ Status.Diagnosed }
    ensures write_fault { result ≡ Status.WriteFault → Rose (S.faults out.old) (S.faults out.new) }
    ensures world_fault { result ≡ Status.WorldFault → Rose (W.faults world.old) (W.faults world.new) }
    ensures calm_sink { S.calm out.old → result ≢ Status.WriteFault }
    ensures calm_world { W.calm world.old → result ≢ Status.WorldFault }
{
    match Engine::resume(alloc, site, books) {
        Ok(mut engine) => {
            write_from(alloc, workers, style, recur, &mut engine, world, out, limit)
        }
        Err(_) => Status::OutOfMemory,
    }
}

/// Writes the log of the world's turns by an engine before its first turn.
fn write_from<W: World, S: Sink, C: Workers>(
    alloc: Global,
    workers: &C,
    style: Style,
    recur: bool,
    engine: &mut Engine,
    world: &mut W,
    out: &mut S,
    limit: u64,
) -> Status
    requires callers { AreCallers (C.callers workers.now) }
    requires apt { C.apt workers.now }
    requires fresh { engine.old.spent ≡ false }
    requires few { engine.old.run.turns + limit ≤ 2 ^ 40 }
    requires sound { IsSound (site_view engine.old.run.site) }
    requires zone { IsZoneOf (site_view engine.old.run.site).zone engine.old.run.zone }
    requires file { MatchOption (site_view engine.old.run.site).zone (Unit {0}) (λ bytes. IsBadFile bytes → ⊥) }
    ensures went { (histories : Histories) → stage_of engine.old.run [] ≡ start (site_view engine.old.run.site) histories →
        WentOver result (C.callers workers.now) style recur limit (site_view engine.old.run.site) histories (outside (W.turns world.old) (W.started world.old) (W.calls world.old) (S.written out.old) (S.kept_back out.old)) (outside (W.turns world.new) (W.started world.new) (W.calls world.new) (S.written out.new) (S.kept_back out.new)) }
    ensures written { (histories : Histories) → stage_of engine.old.run [] ≡ start (site_view engine.old.run.site) histories →
        EndsRun result (AnswersTurns (C.callers workers.now) style recur limit (W.turns world.old) (site_view engine.old.run.site) histories) (S.written out.old) (S.written out.new) }
    ensures through { HandsOn result (S.kept_back out.new) }
    ensures never_usage { result ≢ Status.Usage }
    ensures never_illegal { result ≢ Status.NotLegal }
    ensures no_read_fault { result ≢ Status.ReadFault }
    ensures never_diagnosed { result ≢ Status.Diagnosed }
    ensures write_fault { result ≡ Status.WriteFault → Rose (S.faults out.old) (S.faults out.new) }
    ensures world_fault { result ≡ Status.WorldFault → Rose (W.faults world.old) (W.faults world.new) }
    ensures calm_sink { S.calm out.old → result ≢ Status.WriteFault }
    ensures calm_world { W.calm world.old → result ≢ Status.WorldFault }
{
    if recur {
        write_recurring(alloc, workers, style, engine, world, out, limit)
    } else {
        write_plain(alloc, workers, style, engine, world, out, limit)
    }
}

/// The same if no downtime recurs.
fn write_plain<W: World, S: Sink, C: Workers>(
    alloc: Global,
    workers: &C,
    style: Style,
    engine: &mut Engine,
    world: &mut W,
    out: &mut S,
    limit: u64,
) -> Status
    requires callers { AreCallers (C.callers workers.now) }
    requires apt { C.apt workers.now }
    requires fresh { engine.old.spent ≡ false }
    requires few { engine.old.run.turns + limit ≤ 2 ^ 40 }
    requires sound { IsSound (site_view engine.old.run.site) }
    requires zone { IsZoneOf (site_view engine.old.run.site).zone engine.old.run.zone }
    ensures went { (histories : Histories) → stage_of engine.old.run [] ≡ start (site_view engine.old.run.site) histories →
        WentOver result (C.callers workers.now) style false limit (site_view engine.old.run.site) histories (outside (W.turns world.old) (W.started world.old) (W.calls world.old) (S.written out.old) (S.kept_back out.old)) (outside (W.turns world.new) (W.started world.new) (W.calls world.new) (S.written out.new) (S.kept_back out.new)) }
    ensures written { (histories : Histories) → stage_of engine.old.run [] ≡ start (site_view engine.old.run.site) histories →
        EndsRun result (AnswersTurns (C.callers workers.now) style false limit (W.turns world.old) (site_view engine.old.run.site) histories) (S.written out.old) (S.written out.new) }
    ensures through { HandsOn result (S.kept_back out.new) }
    ensures never_usage { result ≢ Status.Usage }
    ensures never_illegal { result ≢ Status.NotLegal }
    ensures no_read_fault { result ≢ Status.ReadFault }
    ensures never_diagnosed { result ≢ Status.Diagnosed }
    ensures write_fault { result ≡ Status.WriteFault → Rose (S.faults out.old) (S.faults out.new) }
    ensures world_fault { result ≡ Status.WorldFault → Rose (W.faults world.old) (W.faults world.new) }
    ensures calm_sink { S.calm out.old → result ≢ Status.WriteFault }
    ensures calm_world { W.calm world.old → result ≢ Status.WorldFault }
{
    let mut feed = NoFeed::new(alloc);
    write_log(alloc, workers, style, engine, &mut feed, world, out, limit)
}

/// The same if they do.
fn write_recurring<W: World, S: Sink, C: Workers>(
    alloc: Global,
    workers: &C,
    style: Style,
    engine: &mut Engine,
    world: &mut W,
    out: &mut S,
    limit: u64,
) -> Status
    requires callers { AreCallers (C.callers workers.now) }
    requires apt { C.apt workers.now }
    requires fresh { engine.old.spent ≡ false }
    requires few { engine.old.run.turns + limit ≤ 2 ^ 40 }
    requires sound { IsSound (site_view engine.old.run.site) }
    requires zone { IsZoneOf (site_view engine.old.run.site).zone engine.old.run.zone }
    requires file { MatchOption (site_view engine.old.run.site).zone (Unit {0}) (λ bytes. IsBadFile bytes → ⊥) }
    ensures went { (histories : Histories) → stage_of engine.old.run [] ≡ start (site_view engine.old.run.site) histories →
        WentOver result (C.callers workers.now) style true limit (site_view engine.old.run.site) histories (outside (W.turns world.old) (W.started world.old) (W.calls world.old) (S.written out.old) (S.kept_back out.old)) (outside (W.turns world.new) (W.started world.new) (W.calls world.new) (S.written out.new) (S.kept_back out.new)) }
    ensures written { (histories : Histories) → stage_of engine.old.run [] ≡ start (site_view engine.old.run.site) histories →
        EndsRun result (AnswersTurns (C.callers workers.now) style true limit (W.turns world.old) (site_view engine.old.run.site) histories) (S.written out.old) (S.written out.new) }
    ensures through { HandsOn result (S.kept_back out.new) }
    ensures never_usage { result ≢ Status.Usage }
    ensures never_illegal { result ≢ Status.NotLegal }
    ensures no_read_fault { result ≢ Status.ReadFault }
    ensures never_diagnosed { result ≢ Status.Diagnosed }
    ensures write_fault { result ≡ Status.WriteFault → Rose (S.faults out.old) (S.faults out.new) }
    ensures world_fault { result ≡ Status.WorldFault → Rose (W.faults world.old) (W.faults world.new) }
    ensures calm_sink { S.calm out.old → result ≢ Status.WriteFault }
    ensures calm_world { W.calm world.old → result ≢ Status.WorldFault }
{
    let Ok(zone) = zone_of(alloc, engine.site()) else {
        return Status::OutOfMemory;
    };
    let Ok(mut feed) = RecurFeed::new(alloc, engine.site(), &zone) else {
        return Status::OutOfMemory;
    };
    write_log(alloc, workers, style, engine, &mut feed, world, out, limit)
}
