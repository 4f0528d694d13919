// The log of a script.
ghost use Rattle.std.specs.Prelude.{◌≡◌, ◌≢◌, Some, IfSome, option_map};
ghost use Rattle.site_edge.specs.Told.{Rose, find_file};
ghost use Rattle.site_model.specs.PlainSite.{site_view};
ghost use Rattle.site_phases.specs.Phases.{IsReady};
ghost use Rattle.site_posts.specs.Books.{histories_of};
ghost use Rattle.site_text.specs.ScriptReading.{Tells};
ghost use Rattle.site_text.specs.Scripts.{Has};
ghost use Rattle.turn_engine.specs.Checkables.{AreOf};
ghost use Rattle.site_run.specs.Callers.{AreCallers};
ghost use Rattle.site_run.specs.Ends.{HandsOn};
ghost use Rattle.site_run.specs.Logs.{EndsRun};
ghost use Rattle.site_answers.specs.SiteAnswers.{AnswersBytes, AnswersReplayed};

use crate::before::{books_before, write_lost};
use checkable_core::Checkable;
use run_replies::write_made;
use run_text::Style;
use site_base::{Blob, Row};
use site_edge::{FileFault, Files, Sink, Turn};
use site_model::Site;
use site_replies::{bad_script, no_file};
use site_run::{ScriptWorld, Status, Workers};
use site_text::ScriptError;
use std::alloc::Global;
use whole_runs::write_site_log;

/// How many turns are taken at most.
pub(crate) const MOST_TURNS: u64 = 100_000_000;

/// Writes the log of a script's turns over a site, whose events these workers take, after the entries of a state file, if one is named, or
/// why there is none. Its downtimes recur or don't. The state file is read first, and the script only if there are such entries. The
/// workers are 1 to 64.
pub fn replay_site<F: Files, S: Sink, C: Workers>(
    alloc: Global,
    workers: &C,
    style: Style,
    recur: bool,
    state: Option<&str>,
    script: &str,
    site: Site,
    files: &mut F,
    out: &mut S,
) -> Status
    requires callers { AreCallers (C.callers workers.now) }
    requires apt { C.apt workers.now }
    requires ready { IsReady (site_view site) }
    ensures never_usage { result ≢ Status.Usage }
    ensures never_illegal { result ≢ Status.NotLegal }
    ensures written { EndsRun result (λ w. IfSome (F.told files.old) (λ all. AnswersReplayed (C.callers workers.now) style recur (option_map (λ name. name.now) state.entry) script.now all (site_view site) w)) (S.written out.old) (S.written out.new) }
    ensures through { HandsOn result (S.kept_back out.new) }
    ensures told { F.told files.new ≡ F.told files.old }
    ensures read_fault { result ≡ Status.ReadFault → Rose (F.faults files.old) (F.faults files.new) }
    ensures write_fault { result ≡ Status.WriteFault → Rose (S.faults out.old) (S.faults out.new) }
    ensures calm_files { F.calm files.old → result ≢ Status.ReadFault }
    ensures calm_sink { S.calm out.old → result ≢ Status.WriteFault }
    ensures no_world_fault { result ≢ Status.WorldFault }
{
    match books_before(alloc, state, &site, files) {
        Ok(books) => replay_over(
            alloc, workers, style, recur, script, site, books, files, out,
        ),
        Err(lost) => write_lost(alloc, lost, state, out),
    }
}

/// Reads the script, and writes the log of its turns over a site, after the entries of its checkables, one each by index.
fn replay_over<F: Files, S: Sink, C: Workers>(
    alloc: Global,
    workers: &C,
    style: Style,
    recur: bool,
    script: &str,
    site: Site,
    books: Vec<Checkable>,
    files: &mut F,
    out: &mut S,
) -> Status
    requires callers { AreCallers (C.callers workers.now) }
    requires apt { C.apt workers.now }
    requires ready { IsReady (site_view site) }
    requires books { AreOf (site_view site) books.items }
    ensures never_usage { result ≢ Status.Usage }
    ensures never_illegal { result ≢ Status.NotLegal }
    ensures written { EndsRun result (λ w. IfSome (F.told files.old) (λ all. AnswersBytes (C.callers workers.now) style recur script.now (site_view site) (histories_of books.items) (find_file script.now all) w)) (S.written out.old) (S.written out.new) }
    ensures through { HandsOn result (S.kept_back out.new) }
    ensures told { F.told files.new ≡ F.told files.old }
    ensures read_fault { result ≡ Status.ReadFault → Rose (F.faults files.old) (F.faults files.new) }
    ensures write_fault { result ≡ Status.WriteFault → Rose (S.faults out.old) (S.faults out.new) }
    ensures calm_files { F.calm files.old → result ≢ Status.ReadFault }
    ensures calm_sink { S.calm out.old → result ≢ Status.WriteFault }
    ensures no_world_fault { result ≢ Status.WorldFault }
{
    match files.read(script) {
        Ok(Some(bytes)) => replay_bytes(
            alloc, workers, style, recur, script, site, books, bytes, out,
        ),
        Ok(None) => write_made(no_file(alloc, script), out),
        Err(FileFault::Failed) => Status::ReadFault,
        Err(FileFault::OutOfMemory) => Status::OutOfMemory,
    }
}

/// Writes the log of the turns of these bytes over a site, or which line of them is none of a script.
fn replay_bytes<S: Sink, C: Workers>(
    alloc: Global,
    workers: &C,
    style: Style,
    recur: bool,
    script: &str,
    site: Site,
    books: Vec<Checkable>,
    bytes: Blob,
    out: &mut S,
) -> Status
    requires callers { AreCallers (C.callers workers.now) }
    requires apt { C.apt workers.now }
    requires ready { IsReady (site_view site) }
    requires books { AreOf (site_view site) books.items }
    ensures never_usage { result ≢ Status.Usage }
    ensures never_illegal { result ≢ Status.NotLegal }
    ensures no_read_fault { result ≢ Status.ReadFault }
    ensures written { EndsRun result (AnswersBytes (C.callers workers.now) style recur script.now (site_view site) (histories_of books.items) (Some bytes)) (S.written out.old) (S.written out.new) }
    ensures through { HandsOn result (S.kept_back out.new) }
    ensures write_fault { result ≡ Status.WriteFault → Rose (S.faults out.old) (S.faults out.new) }
    ensures calm_sink { S.calm out.old → result ≢ Status.WriteFault }
    ensures no_world_fault { result ≢ Status.WorldFault }
{
    match turns_of(alloc, workers, bytes) {
        Ok(turns) => write_site_log(
            alloc,
            workers,
            style,
            recur,
            site,
            books,
            &mut ScriptWorld::new(turns),
            out,
            MOST_TURNS,
        ),
        Err(ScriptError::BadScript { line }) => write_made(bad_script(alloc, script, line), out),
        Err(ScriptError::OutOfMemory) => Status::OutOfMemory,
    }
}

/// The turns of a script, whose bytes are kept no longer.
pub(crate) fn turns_of<C: Workers>(
    alloc: Global,
    workers: &C,
    bytes: Blob,
) -> Result<Row<Turn>, ScriptError>
    requires callers { AreCallers (C.callers workers.now) }
    requires apt { C.apt workers.now }
    ensures { Tells (Has bytes) result }
{
    workers.read(alloc, bytes.as_slice())
}
