// The whole run, with as many workers as are asked for.
ghost use Rattle.std.specs.Bool.{Decides};
ghost use Rattle.std.specs.Prelude.{◌≡◌, ◌≢◌, ◌↔◌, ◌<◌, ◌≤◌, ◌^◌, Bool, List, false, true, None, Some, Err, IfSome, IfOk, IsErrOf, OnOk};
ghost use Rattle.conf_sources.specs.Sources.{Told};
ghost use Rattle.site_phases.specs.Phases.{FilesStay, IfSite, IsReady, answer_view};
ghost use Rattle.site_load.specs.Configs.{IsBadZone, config_outcome, names_of};
ghost use Rattle.site_load.specs.Idle.{idle_by, rules_of};
ghost use Rattle.site_load.specs.Loads.{load_outcome};
ghost use Rattle.run_meaning.specs.Runs.{TurnLog};
ghost use Rattle.run_meaning.specs.Turns.{Begun};
ghost use Rattle.run_text.specs.LogText.{turn_lines};
ghost use Rattle.site_model.specs.PlainSite.{site_view};
ghost use Rattle.site_model.specs.Sound.{IsSound};
ghost use Rattle.turn_engine.specs.Stages.{Tells, TellsTurn, basis_of_run, stage_from, stage_of, turn_as_read};
ghost use Rattle.engine_log.specs.OnSite.{IsTurnOf};
ghost use Rattle.site_edge.specs.Told.{Rose};
ghost use Rattle.site_words.specs.Commands.{command_of as command_in};
ghost use Rattle.site_words.specs.Tasks.{is_audit};
ghost use Rattle.site_run.specs.Callers.{AreCallers};
ghost use Rattle.site_run.specs.Logs.{EndsRun};
ghost use Rattle.site_run.specs.Ends.{HandsOn, outside};
ghost use Rattle.site_text.specs.ScriptReading.{Tells as TellsScript};
ghost use Rattle.site_text.specs.Scripts.{Has};
ghost use Rattle.site_program.specs.Complete.{IsComplete};
ghost use Rattle.site_program.specs.TaskAnswers.{Answers, Came, Remarked, is_daemon, is_generate};

use crate::committers::ManyCommitters;
use crate::running::{run_one, run_task};
use engine_log::turn_lines_by_many;
use post_turn::Gate;
use run_text::Style;
use script_parts::read_script_by_many;
use site_base::{OutOfMemory, Row, Text, Texts};
use site_conf::LoadFault;
use site_edge::{Files, Sink, Turn, World};
use site_load::{Made, config_answer_by_many, config_made_by_many};
use site_model::Site;
use site_phases::Answer;
use site_replies::Remarks;
use site_run::{ManyWorkers, Status};
use site_text::ScriptError;
use site_words::command_of;
use std::alloc::Global;
use std::sync::Wait;
use std::thread::Threads;
use turn_engine::{Engine, TurnOut};

/// Does what the words of a command line ask for, with as many workers as they ask for. Those make the objects of a wave at the same time, and
/// then take the events of a turn, and enter the gate before and after each. If that is one, [`run_one`] does it, and no thread is made.
///
/// `world` is touched by `daemon` alone, `files` by all words but `gen`, `remarks` by `check` and `daemon`, and after `Usage` nothing is.
pub fn run<F: Files, W: World, S: Sink, N: Remarks, R: Wait + Threads + Sync, G: Gate + Sync>(
    rt: &R,
    alloc: Global,
    words: &[Text],
    files: &mut F,
    world: &mut W,
    out: &mut S,
    remarks: &mut N,
    gate: &G,
) -> Status
    ensures usage { (result ≡ Status.Usage) ↔ (command_in words.now ≡ None) }
    ensures refused { result ≡ Status.Usage → (files.new ≡ files.old) × (out.new ≡ out.old) × (world.new ≡ world.old) × (remarks.new ≡ remarks.old) }

    // What was written is what answers to the words over the files and the turns of the world, or after a fault a prefix of it.
    ensures written { IfSome (command_in words.now) (λ c.
        EndsRun result (Answers c.workers c.task (F.told files.old) (W.turns world.old)) (S.written out.old) (S.written out.new)) }

    // Unless a fault ended it or there was no memory for it, it wrote the whole answer and ended as that does: over lawful files with
    // status 0, and with diagnostics with status 1.
    ensures complete { IfSome (command_in words.now) (λ c.
        IsComplete result c.workers c.task (F.told files.old) (W.turns world.old) (S.written out.old) (S.written out.new)) }

    // What is remarked of a site is told by `check` and `daemon`, before anything is written.
    ensures remarked { IfSome (command_in words.now) (λ c.
        Remarked result c.task (F.told files.old) (N.remarked remarks.old) (N.remarked remarks.new)) }

    // If it ends well, and also if the world failed, nothing of that is kept back.
    ensures through { HandsOn result (S.kept_back out.new) }

    // Of a daemon also which turns were taken, and by which calls their checks were started: none if it has no site.
    ensures came { IfSome (command_in words.now) (λ c.
        Came result c.workers c.task (F.told files.old) (outside (W.turns world.old) (W.started world.old) (W.calls world.old) (S.written out.old) (S.kept_back out.old)) (outside (W.turns world.new) (W.started world.new) (W.calls world.new) (S.written out.new) (S.kept_back out.new))) }

    ensures told { F.told files.new ≡ F.told files.old }
    ensures untouched { IfSome (command_in words.now) (λ c. is_daemon c.task ≡ false → world.new ≡ world.old) }
    ensures unread { IfSome (command_in words.now) (λ c. is_generate c.task ≡ true → files.new ≡ files.old) }
    ensures read_fault { result ≡ Status.ReadFault → Rose (F.faults files.old) (F.faults files.new) }
    ensures write_fault { result ≡ Status.WriteFault → Rose (S.faults out.old) (S.faults out.new) }
    ensures world_fault { result ≡ Status.WorldFault → Rose (W.faults world.old) (W.faults world.new) }
    ensures calm_files { F.calm files.old → result ≢ Status.ReadFault }
    ensures calm_sink { S.calm out.old → result ≢ Status.WriteFault }
    ensures calm_world { W.calm world.old → result ≢ Status.WorldFault }
    ensures no_world_fault { IfSome (command_in words.now) (λ c. is_daemon c.task ≡ false → result ≢ Status.WorldFault) }
    ensures no_verdict { IfSome (command_in words.now) (λ c. is_audit c.task ≡ false → result ≢ Status.NotLegal) }
{
    if let Some(status) = run_one(alloc, words, files, world, out, remarks) {
        return status;
    }
    let Some(command) = command_of(words) else {
        return Status::Usage;
    };
    let count = command.workers;
    let workers = ManyWorkers {
        count,
        read: |alloc: Global, bytes: &[u8]| -> Result<Row<Turn>, ScriptError>
            requires { AreCallers count }
            ensures { TellsScript (Has bytes.now) result }
        { read_script_by_many(rt, alloc, bytes, count) },
        take: |engine: &mut Engine, turn: &Turn| -> Result<TurnOut, OutOfMemory>
            requires fresh { engine.old.spent ≡ false }
            requires few { engine.old.run.turns < 2 ^ 40 }
            requires workers { AreCallers count }
            ensures turn { (begun : List Begun) →
                IfOk result (λ out. TellsTurn (basis_of_run engine.old.run) count (stage_of engine.old.run begun) (turn_as_read engine.old.run turn.now) out (stage_from engine.old.run begun engine.new.run)) }
            ensures site { OnOk result (engine.new.run.site ≡ engine.old.run.site) }
            ensures zone { OnOk result (engine.new.run.zone ≡ engine.old.run.zone) }
            ensures fresh { OnOk result (engine.new.spent ≡ false) }
        { engine.turn(rt, turn, count, gate) },
        tell: |alloc: Global, style: Style, site: &Site, turn: &TurnOut| -> Result<
            Texts,
            OutOfMemory,
        >
            requires sound { IsSound (site_view site.now) }
            requires turn { IsTurnOf (site_view site.now) turn.now }
            requires workers { AreCallers count }
            ensures { (l : TurnLog) → Tells turn.now l → IfOk result (λ lines. lines ≡ turn_lines style (site_view site.now) l) }
        { turn_lines_by_many(rt, alloc, style, site, turn, count) },
    };
    let committers = ManyCommitters {
        answer: |alloc: Global, files: &mut F, root: &str| -> Result<Answer, LoadFault>
            ensures value { (all : Told) (bad : Bool) → F.told files.old ≡ Some all → Decides bad (IsBadZone (load_outcome all root.now))
                → IfOk result (λ a. answer_view a ≡ config_outcome bad (load_outcome all root.now)) }
            ensures files { (all : Told) → F.told files.old ≡ Some all → IfOk result (FilesStay (names_of (load_outcome all root.now))) }
            ensures ready { IfOk result (λ a. IfSite a IsReady) }
            ensures same { F.told files.new ≡ F.told files.old }
            ensures cause { IsErrOf result LoadFault.Failed → Rose (F.faults files.old) (F.faults files.new) }
            ensures counts { F.faults files.old ≤ F.faults files.new }
            ensures calm { F.calm files.old → F.calm files.new }
            ensures unfailing { F.calm files.old → result ≢ Err LoadFault.Failed }
        { config_answer_by_many(rt, alloc, files, root, count) },
        made: |alloc: Global, files: &mut F, root: &str| -> Result<Made, LoadFault>
            ensures value { (all : Told) (bad : Bool) → F.told files.old ≡ Some all → Decides bad (IsBadZone (load_outcome all root.now))
                → IfOk result (λ m. answer_view m.answer ≡ config_outcome bad (load_outcome all root.now)) }
            ensures idle { (all : Told) → F.told files.old ≡ Some all → IfOk result (λ m. m.idle ≡ idle_by (rules_of (load_outcome all root.now)) (answer_view m.answer)) }
            ensures files { (all : Told) → F.told files.old ≡ Some all → IfOk result (λ m. FilesStay (names_of (load_outcome all root.now)) m.answer) }
            ensures ready { IfOk result (λ m. IfSite m.answer IsReady) }
            ensures same { F.told files.new ≡ F.told files.old }
            ensures cause { IsErrOf result LoadFault.Failed → Rose (F.faults files.old) (F.faults files.new) }
            ensures counts { F.faults files.old ≤ F.faults files.new }
            ensures calm { F.calm files.old → F.calm files.new }
            ensures unfailing { F.calm files.old → result ≢ Err LoadFault.Failed }
        { config_made_by_many(rt, alloc, files, root, count) },
    };
    run_task(
        alloc,
        &workers,
        &committers,
        command.task,
        files,
        world,
        out,
        remarks,
    )
}
