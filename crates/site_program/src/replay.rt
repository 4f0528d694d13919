// The log of a script.
ghost use Rattle.std.specs.Prelude.{◌≡◌, ◌≢◌, IfSome, option_map};
ghost use Rattle.site_edge.specs.Told.{Rose};
ghost use Rattle.site_run.specs.Callers.{AreCallers};
ghost use Rattle.site_run.specs.Ends.{HandsOn};
ghost use Rattle.site_run.specs.Logs.{EndsRun};
ghost use Rattle.site_answers.specs.SiteAnswers.{AnswersReplayed};
ghost use Rattle.site_program.specs.TaskAnswers.{AnswersSite};

use crate::committers::Committers;
use crate::config::status_of;
use run_replies::write_made;
use run_text::Style;
use site_answers::replay_site;
use site_edge::{Files, Sink};
use site_phases::Answer;
use site_replies::diagnoses;
use site_run::{Status, Workers};
use std::alloc::Global;

/// Writes the log of a script's turns, whose events these workers take, over the site that the files from the root on make, or why there
/// is none, after the entries of a state file, if one is named. Its downtimes recur or don't. The state file is read only if there is a
/// site, and the script only if there are such entries. The workers are 1 to 64.
pub fn replay<F: Files, S: Sink, C: Workers, M: Committers<F>>(
    alloc: Global,
    workers: &C,
    committers: &M,
    style: Style,
    recur: bool,
    root: &str,
    state: Option<&str>,
    script: &str,
    files: &mut F,
    out: &mut S,
) -> Status
    requires callers { AreCallers (C.callers workers.now) }
    requires apt { C.apt workers.now }
    requires committing { M.apt committers.now }
    ensures never_usage { result ≢ Status.Usage }
    ensures never_illegal { result ≢ Status.NotLegal }
    ensures written { EndsRun result (λ w. IfSome (F.told files.old) (λ all. AnswersSite all root.now (AnswersReplayed (C.callers workers.now) style recur (option_map (λ name. name.now) state.entry) script.now all) w)) (S.written out.old) (S.written out.new) }
    ensures through { HandsOn result (S.kept_back out.new) }
    ensures told { F.told files.new ≡ F.told files.old }
    ensures read_fault { result ≡ Status.ReadFault → Rose (F.faults files.old) (F.faults files.new) }
    ensures write_fault { result ≡ Status.WriteFault → Rose (S.faults out.old) (S.faults out.new) }
    ensures calm_files { F.calm files.old → result ≢ Status.ReadFault }
    ensures calm_sink { S.calm out.old → result ≢ Status.WriteFault }
    ensures no_world_fault { result ≢ Status.WorldFault }
{
    match committers.answer(alloc, files, root) {
        Ok(Answer::Site(site)) => replay_site(
            alloc, workers, style, recur, state, script, site, files, out,
        ),
        Ok(Answer::Diags { files, list }) => {
            write_made(diagnoses(alloc, &files, list.as_slice()), out)
        }
        Err(fault) => status_of(fault),
    }
}
