// The objects of a configuration.
ghost use Rattle.std.specs.Prelude.{◌≡◌, ◌≢◌, false, IfSome};
ghost use Rattle.site_edge.specs.Told.{Rose};
ghost use Rattle.site_program.specs.Runs.{status_by};
ghost use Rattle.site_run.specs.Ends.{HandsOn};
ghost use Rattle.site_run.specs.Logs.{EndsRun};
ghost use Rattle.site_program.specs.TaskAnswers.{AnswersShown, RemarkedOf};
ghost use Rattle.site_replies.specs.declared.replies.Shown.TheVariants as shown_as;

use crate::committers::Committers;
use crate::remarked::answer_remarked;
use run_replies::write_made;
use site_conf::LoadFault;
use site_edge::{Files, Sink};
use site_replies::{Remarks, Shown, reply_to_config};
use site_run::Status;
use std::alloc::Global;

/// Writes how many objects the configuration that the files from the root on make has, or what is wrong with it, and tells what is remarked
/// of its site.
pub fn count_objects<F: Files, S: Sink, N: Remarks, M: Committers<F>>(
    alloc: Global,
    committers: &M,
    root: &str,
    files: &mut F,
    out: &mut S,
    remarks: &mut N,
) -> Status
    requires apt { M.apt committers.now }
    ensures never_usage { result ≢ Status.Usage }
    ensures never_illegal { result ≢ Status.NotLegal }
    ensures written { EndsRun result (λ w. IfSome (F.told files.old) (λ all. AnswersShown all shown_as.Count root.now w)) (S.written out.old) (S.written out.new) }
    ensures remarked { RemarkedOf result false root.now (F.told files.old) (N.remarked remarks.old) (N.remarked remarks.new) }
    ensures through { HandsOn result (S.kept_back out.new) }
    ensures told { F.told files.new ≡ F.told files.old }
    ensures read_fault { result ≡ Status.ReadFault → Rose (F.faults files.old) (F.faults files.new) }
    ensures write_fault { result ≡ Status.WriteFault → Rose (S.faults out.old) (S.faults out.new) }
    ensures calm_files { F.calm files.old → result ≢ Status.ReadFault }
    ensures calm_sink { S.calm out.old → result ≢ Status.WriteFault }
    ensures no_world_fault { result ≢ Status.WorldFault }
{
    match answer_remarked(alloc, committers, false, files, root, remarks) {
        Ok(answer) => write_made(reply_to_config(alloc, answer, Shown::Count), out),
        Err(fault) => status_of(fault),
    }
}

/// Writes the objects of the configuration that the files from the root on make, or what is wrong with it.
pub fn list_objects<F: Files, S: Sink, M: Committers<F>>(
    alloc: Global,
    committers: &M,
    root: &str,
    files: &mut F,
    out: &mut S,
) -> Status
    requires apt { M.apt committers.now }
    ensures never_usage { result ≢ Status.Usage }
    ensures never_illegal { result ≢ Status.NotLegal }
    ensures written { EndsRun result (λ w. IfSome (F.told files.old) (λ all. AnswersShown all shown_as.Listing root.now w)) (S.written out.old) (S.written out.new) }
    ensures through { HandsOn result (S.kept_back out.new) }
    ensures told { F.told files.new ≡ F.told files.old }
    ensures read_fault { result ≡ Status.ReadFault → Rose (F.faults files.old) (F.faults files.new) }
    ensures write_fault { result ≡ Status.WriteFault → Rose (S.faults out.old) (S.faults out.new) }
    ensures calm_files { F.calm files.old → result ≢ Status.ReadFault }
    ensures calm_sink { S.calm out.old → result ≢ Status.WriteFault }
    ensures no_world_fault { result ≢ Status.WorldFault }
{
    match committers.answer(alloc, files, root) {
        Ok(answer) => write_made(reply_to_config(alloc, answer, Shown::Listing), out),
        Err(fault) => status_of(fault),
    }
}

/// With what a run ends whose files can't be read.
pub fn status_of(fault: LoadFault) -> Status
    ensures { result ≡ status_by fault }
{
    match fault {
        LoadFault::Failed => Status::ReadFault,
        LoadFault::OutOfMemory => Status::OutOfMemory,
    }
}
