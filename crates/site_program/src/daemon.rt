// The log of the world.
ghost use Rattle.std.specs.Prelude.{◌≡◌, ◌≢◌, IfSome, option_map};
ghost use Rattle.site_edge.specs.Told.{Rose};
ghost use Rattle.site_run.specs.Callers.{AreCallers};
ghost use Rattle.site_run.specs.Logs.{EndsRun};
ghost use Rattle.site_run.specs.Ends.{HandsOn, outside};
ghost use Rattle.site_answers.specs.SiteAnswers.{AnswersWatched};
ghost use Rattle.site_program.specs.TaskAnswers.{AnswersSite, CameFar, RemarkedOf};

use crate::committers::Committers;
use crate::config::status_of;
use crate::remarked::answer_remarked;
use run_replies::write_made;
use run_text::Style;
use site_answers::watch_site;
use site_edge::{Files, Sink, World};
use site_phases::Answer;
use site_replies::{Remarks, diagnoses};
use site_run::{Status, Workers};
use std::alloc::Global;

/// Writes the log of the world's turns, whose events these workers take, over the site that the files from the root on make, or why there
/// is none, after the entries of a state file, if one is named, and tells what is remarked of that site before. Its downtimes recur or
/// don't. No turn is taken and no check started if there is no site, or no such entries. The workers are 1 to 64.
pub fn watch<F: Files, W: World, S: Sink, N: Remarks, C: Workers, M: Committers<F>>(
    alloc: Global,
    workers: &C,
    committers: &M,
    style: Style,
    recur: bool,
    root: &str,
    state: Option<&str>,
    files: &mut F,
    world: &mut W,
    out: &mut S,
    remarks: &mut N,
) -> Status
    requires callers { AreCallers (C.callers workers.now) }
    requires apt { C.apt workers.now }
    requires committing { M.apt committers.now }
    ensures never_usage { result ≢ Status.Usage }
    ensures never_illegal { result ≢ Status.NotLegal }
    ensures written { EndsRun result (λ w. IfSome (F.told files.old) (λ all. AnswersSite all root.now (AnswersWatched (C.callers workers.now) style recur (option_map (λ name. name.now) state.entry) (W.turns world.old) all) w)) (S.written out.old) (S.written out.new) }
    ensures remarked { RemarkedOf result recur root.now (F.told files.old) (N.remarked remarks.old) (N.remarked remarks.new) }
    ensures through { HandsOn result (S.kept_back out.new) }
    // Which turns were taken, what was written of them, and by which calls their checks were started.
    ensures came { CameFar result (C.callers workers.now) style recur root.now (option_map (λ name. name.now) state.entry) (F.told files.old) (outside (W.turns world.old) (W.started world.old) (W.calls world.old) (S.written out.old) (S.kept_back out.old)) (outside (W.turns world.new) (W.started world.new) (W.calls world.new) (S.written out.new) (S.kept_back out.new)) }
    ensures told { F.told files.new ≡ F.told files.old }
    ensures read_fault { result ≡ Status.ReadFault → Rose (F.faults files.old) (F.faults files.new) }
    ensures write_fault { result ≡ Status.WriteFault → Rose (S.faults out.old) (S.faults out.new) }
    ensures world_fault { result ≡ Status.WorldFault → Rose (W.faults world.old) (W.faults world.new) }
    ensures calm_files { F.calm files.old → result ≢ Status.ReadFault }
    ensures calm_sink { S.calm out.old → result ≢ Status.WriteFault }
    ensures calm_world { W.calm world.old → result ≢ Status.WorldFault }
{
    match answer_remarked(alloc, committers, recur, files, root, remarks) {
        Ok(Answer::Site(site)) => watch_site(
            alloc, workers, style, recur, state, site, files, world, out,
        ),
        Ok(Answer::Diags { files, list }) => {
            write_made(diagnoses(alloc, &files, list.as_slice()), out)
        }
        Err(fault) => status_of(fault),
    }
}
