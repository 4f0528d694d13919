// The whole run, with one worker.
ghost use Rattle.std.specs.Prelude.{◌≡◌, ◌≢◌, ◌↔◌, Bool, false, true, None, Some, IfSome};
ghost use Rattle.site_edge.specs.Told.{Rose};
ghost use Rattle.site_words.specs.Commands.{command_of as command_in};
ghost use Rattle.site_words.specs.Tasks.{is_audit, task_view};
ghost use Rattle.site_run.specs.Callers.{AreCallers};
ghost use Rattle.site_run.specs.Logs.{EndsRun};
ghost use Rattle.site_run.specs.Ends.{HandsOn, outside};
ghost use Rattle.site_program.specs.Complete.{IsComplete};
ghost use Rattle.site_program.specs.TaskAnswers.{Answers, AskForMany, Came, Remarked, is_daemon, is_generate};

use crate::audit::audit_log;
use crate::committers::{Committers, OneCommitter};
use crate::config::{count_objects, list_objects};
use crate::daemon::watch;
use crate::generate::generate;
use crate::keep::keep;
use crate::query::answer_query;
use crate::replay::replay;
use site_base::Text;
use site_edge::{Files, Sink, World};
use site_replies::Remarks;
use site_run::{OneWorker, Status, Workers};
use site_words::{Command, Task, command_of};
use std::alloc::Global;

/// Does what the words of a command line ask for, with one worker, and waits for nobody but the world.
///
/// It answers `None`, with nothing touched, exactly for words that ask for two or more workers. `world` is touched by `daemon` alone,
/// `files` by all words but `gen`, `remarks` by `check` and `daemon`, and after `Usage` nothing is.
pub fn run_one<F: Files, W: World, S: Sink, N: Remarks>(
    alloc: Global,
    words: &[Text],
    files: &mut F,
    world: &mut W,
    out: &mut S,
    remarks: &mut N,
) -> Option<Status>
    ensures answered { (result ≡ None) ↔ AskForMany (command_in words.now) }
    ensures passed { result ≡ None → (files.new ≡ files.old) × (out.new ≡ out.old) × (world.new ≡ world.old) × (remarks.new ≡ remarks.old) }
    ensures usage { (result ≡ Some Status.Usage) ↔ (command_in words.now ≡ None) }
    ensures refused { result ≡ Some Status.Usage → (files.new ≡ files.old) × (out.new ≡ out.old) × (world.new ≡ world.old) × (remarks.new ≡ remarks.old) }

    // What was written is what answers to the words over the files and the turns of the world, or after a fault a prefix of it.
    ensures written { IfSome (command_in words.now) (λ c. IfSome result (λ status.
        EndsRun status (Answers c.workers c.task (F.told files.old) (W.turns world.old)) (S.written out.old) (S.written out.new))) }

    // Unless a fault ended it or there was no memory for it, it wrote the whole answer and ended as that does: over lawful files with
    // status 0, and with diagnostics with status 1.
    ensures complete { IfSome (command_in words.now) (λ c. IfSome result (λ status.
        IsComplete status c.workers c.task (F.told files.old) (W.turns world.old) (S.written out.old) (S.written out.new))) }

    // What is remarked of a site is told by `check` and `daemon`, before anything is written.
    ensures remarked { IfSome (command_in words.now) (λ c. IfSome result (λ status.
        Remarked status c.task (F.told files.old) (N.remarked remarks.old) (N.remarked remarks.new))) }

    // If it ends well, and also if the world failed, nothing of that is kept back.
    ensures through { IfSome result (λ status. HandsOn status (S.kept_back out.new)) }

    // Of a daemon also which turns were taken, and by which calls their checks were started: none if it has no site.
    ensures came { IfSome (command_in words.now) (λ c. IfSome result (λ status.
        Came status c.workers c.task (F.told files.old) (outside (W.turns world.old) (W.started world.old) (W.calls world.old) (S.written out.old) (S.kept_back out.old)) (outside (W.turns world.new) (W.started world.new) (W.calls world.new) (S.written out.new) (S.kept_back out.new)))) }

    ensures told { F.told files.new ≡ F.told files.old }
    ensures untouched { IfSome (command_in words.now) (λ c. is_daemon c.task ≡ false → world.new ≡ world.old) }
    ensures unread { IfSome (command_in words.now) (λ c. is_generate c.task ≡ true → files.new ≡ files.old) }
    ensures read_fault { result ≡ Some Status.ReadFault → Rose (F.faults files.old) (F.faults files.new) }
    ensures write_fault { result ≡ Some Status.WriteFault → Rose (S.faults out.old) (S.faults out.new) }
    ensures world_fault { result ≡ Some Status.WorldFault → Rose (W.faults world.old) (W.faults world.new) }
    ensures calm_files { F.calm files.old → result ≢ Some Status.ReadFault }
    ensures calm_sink { S.calm out.old → result ≢ Some Status.WriteFault }
    ensures calm_world { W.calm world.old → result ≢ Some Status.WorldFault }
    ensures no_world_fault { IfSome (command_in words.now) (λ c. is_daemon c.task ≡ false → result ≢ Some Status.WorldFault) }
    ensures no_verdict { IfSome (command_in words.now) (λ c. is_audit c.task ≡ false → result ≢ Some Status.NotLegal) }
{
    match command_of(words) {
        Some(Command { task, workers: 1 }) => {
            Some(run_task(
                alloc,
                &OneWorker,
                &OneCommitter,
                task,
                files,
                world,
                out,
                remarks,
            ))
        }
        Some(_) => None,
        None => Some(Status::Usage),
    }
}

/// Does what is asked for, with these workers, which are 1 to 64, and with these committers.
pub(crate) fn run_task<F: Files, W: World, S: Sink, N: Remarks, C: Workers, M: Committers<F>>(
    alloc: Global,
    workers: &C,
    committers: &M,
    task: Task<'_>,
    files: &mut F,
    world: &mut W,
    out: &mut S,
    remarks: &mut N,
) -> Status
    requires callers { AreCallers (C.callers workers.now) }
    requires apt { C.apt workers.now }
    requires committing { M.apt committers.now }
    ensures never_usage { result ≢ Status.Usage }
    ensures written { EndsRun result (Answers (C.callers workers.now) (task_view task.entry) (F.told files.old) (W.turns world.old)) (S.written out.old) (S.written out.new) }
    ensures remarked { Remarked result (task_view task.entry) (F.told files.old) (N.remarked remarks.old) (N.remarked remarks.new) }
    ensures through { HandsOn result (S.kept_back out.new) }
    ensures came { Came result (C.callers workers.now) (task_view task.entry) (F.told files.old) (outside (W.turns world.old) (W.started world.old) (W.calls world.old) (S.written out.old) (S.kept_back out.old)) (outside (W.turns world.new) (W.started world.new) (W.calls world.new) (S.written out.new) (S.kept_back out.new)) }
    ensures told { F.told files.new ≡ F.told files.old }
    ensures untouched { is_daemon (task_view task.entry) ≡ false → world.new ≡ world.old }
    ensures unread { is_generate (task_view task.entry) ≡ true → files.new ≡ files.old }
    ensures read_fault { result ≡ Status.ReadFault → Rose (F.faults files.old) (F.faults files.new) }
    ensures write_fault { result ≡ Status.WriteFault → Rose (S.faults out.old) (S.faults out.new) }
    ensures world_fault { result ≡ Status.WorldFault → Rose (W.faults world.old) (W.faults world.new) }
    ensures calm_files { F.calm files.old → result ≢ Status.ReadFault }
    ensures calm_sink { S.calm out.old → result ≢ Status.WriteFault }
    ensures calm_world { W.calm world.old → result ≢ Status.WorldFault }
    ensures no_world_fault { is_daemon (task_view task.entry) ≡ false → result ≢ Status.WorldFault }
    ensures no_verdict { is_audit (task_view task.entry) ≡ false → result ≢ Status.NotLegal }
{
    match task {
        Task::Check { root } => count_objects(alloc, committers, root, files, out, remarks),
        Task::Objects { root } => list_objects(alloc, committers, root, files, out),
        Task::Replay {
            style,
            recur,
            root,
            script,
        } => replay(
            alloc, workers, committers, style, recur, root, None, script, files, out,
        ),
        Task::Daemon {
            style,
            recur,
            root,
            state,
        } => watch(
            alloc, workers, committers, style, recur, root, state, files, world, out, remarks,
        ),
        Task::Generate { hosts } => generate(alloc, hosts, out),
        Task::Query {
            root,
            script,
            query,
        } => answer_query(alloc, workers, committers, root, script, query, files, out),
        Task::Keep { root, script } => {
            keep(alloc, workers, committers, root, script, files, out)
        }
        Task::Audit { root, log } => audit_log(alloc, workers, committers, root, log, files, out),
        Task::Resume {
            style,
            root,
            state,
            script,
        } => replay(
            alloc,
            workers,
            committers,
            style,
            false,
            root,
            Some(state),
            script,
            files,
            out,
        ),
    }
}
