// The log of the world.
ghost use Rattle.std.specs.Prelude.{◌≡◌, ◌≢◌, IfSome, option_map};
ghost use Rattle.site_edge.specs.Told.{Rose};
ghost use Rattle.site_model.specs.PlainSite.{site_view};
ghost use Rattle.site_phases.specs.Phases.{IsReady};
ghost use Rattle.site_run.specs.Callers.{AreCallers};
ghost use Rattle.site_run.specs.Logs.{EndsRun};
ghost use Rattle.site_run.specs.Ends.{HandsOn, outside};
ghost use Rattle.site_answers.specs.SiteAnswers.{AnswersWatched, CameBehind};

use crate::before::{books_before, write_lost};
use crate::replay::MOST_TURNS;
use run_text::Style;
use site_edge::{Files, Sink, World};
use site_model::Site;
use site_run::{Status, Workers};
use std::alloc::Global;
use whole_runs::write_site_log;

/// Writes the log of the world's turns over a site, whose events these workers take, after the entries of a state file, if one is named, or
/// why there is none. Its downtimes recur or don't. No turn is taken and no check started if there are no such entries. The workers are 1
/// to 64.
pub fn watch_site<F: Files, W: World, S: Sink, C: Workers>(
    alloc: Global,
    workers: &C,
    style: Style,
    recur: bool,
    state: Option<&str>,
    site: Site,
    files: &mut F,
    world: &mut W,
    out: &mut S,
) -> Status
    requires callers { AreCallers (C.callers workers.now) }
    requires apt { C.apt workers.now }
    requires ready { IsReady (site_view site) }
    ensures never_usage { result ≢ Status.Usage }
    ensures never_illegal { result ≢ Status.NotLegal }
    ensures written { EndsRun result (λ w. IfSome (F.told files.old) (λ all. AnswersWatched (C.callers workers.now) style recur (option_map (λ name. name.now) state.entry) (W.turns world.old) all (site_view site) w)) (S.written out.old) (S.written out.new) }
    ensures came { CameBehind result (C.callers workers.now) style recur (option_map (λ name. name.now) state.entry) (F.told files.old) (site_view site) (outside (W.turns world.old) (W.started world.old) (W.calls world.old) (S.written out.old) (S.kept_back out.old)) (outside (W.turns world.new) (W.started world.new) (W.calls world.new) (S.written out.new) (S.kept_back out.new)) }
    ensures through { HandsOn result (S.kept_back out.new) }
    ensures told { F.told files.new ≡ F.told files.old }
    ensures read_fault { result ≡ Status.ReadFault → Rose (F.faults files.old) (F.faults files.new) }
    ensures write_fault { result ≡ Status.WriteFault → Rose (S.faults out.old) (S.faults out.new) }
    ensures world_fault { result ≡ Status.WorldFault → Rose (W.faults world.old) (W.faults world.new) }
    ensures calm_files { F.calm files.old → result ≢ Status.ReadFault }
    ensures calm_sink { S.calm out.old → result ≢ Status.WriteFault }
    ensures calm_world { W.calm world.old → result ≢ Status.WorldFault }
{
    match books_before(alloc, state, &site, files) {
        Ok(books) => write_site_log(
            alloc, workers, style, recur, site, books, world, out, MOST_TURNS,
        ),
        Err(lost) => write_lost(alloc, lost, state, out),
    }
}
