// The state file of what a script leaves.
ghost use Rattle.std.specs.Prelude.{◌≡◌, ◌≢◌, Some, IfOk, IfSome};
ghost use Rattle.std.specs.List.{concat};
ghost use Rattle.site_edge.specs.Told.{Rose, find_file};
ghost use Rattle.site_model.specs.PlainSite.{site_view};
ghost use Rattle.site_phases.specs.Phases.{IsReady};
ghost use Rattle.site_replies.specs.Replies.{reply_view};
ghost use Rattle.site_run.specs.Callers.{AreCallers};
ghost use Rattle.site_run.specs.Ends.{HandsOn};
ghost use Rattle.site_run.specs.Logs.{EndsRun, EndsOutput};
ghost use Rattle.run_replies.specs.Runs.{replied};
ghost use Rattle.site_answers.specs.SiteAnswers.{AnswersKept, answered};

use crate::replay::{MOST_TURNS, turns_of};
use crate::spent::write_spent;
use kept_runs::keep_turns;
use run_replies::{write_made, write_reply};
use site_base::{Blob, OutOfMemory, Text, Texts};
use site_edge::{FileFault, Files, Sink};
use site_model::Site;
use site_replies::{Reply, bad_script, no_file};
use site_run::{Status, Workers};
use site_text::ScriptError;
use std::alloc::Global;

/// Writes the state file of the entries that the turns of a script leave, whose events these workers take, over a site, or why there is none.
/// The workers are 1 to 64.
pub fn keep_site<F: Files, S: Sink, C: Workers>(
    alloc: Global,
    workers: &C,
    script: &str,
    site: Site,
    files: &mut F,
    out: &mut S,
) -> Status
    requires callers { AreCallers (C.callers workers.now) }
    requires apt { C.apt workers.now }
    requires ready { IsReady (site_view site) }
    ensures never_usage { result ≢ Status.Usage }
    ensures never_illegal { result ≢ Status.NotLegal }
    ensures written { EndsRun result (λ w. IfSome (F.told files.old) (λ all. AnswersKept (C.callers workers.now) script.now (site_view site) (find_file script.now all) w)) (S.written out.old) (S.written out.new) }
    ensures through { HandsOn result (S.kept_back out.new) }
    ensures told { F.told files.new ≡ F.told files.old }
    ensures read_fault { result ≡ Status.ReadFault → Rose (F.faults files.old) (F.faults files.new) }
    ensures write_fault { result ≡ Status.WriteFault → Rose (S.faults out.old) (S.faults out.new) }
    ensures calm_files { F.calm files.old → result ≢ Status.ReadFault }
    ensures calm_sink { S.calm out.old → result ≢ Status.WriteFault }
    ensures no_world_fault { result ≢ Status.WorldFault }
{
    match files.read(script) {
        Ok(Some(bytes)) => keep_bytes(alloc, workers, script, site, bytes, out),
        Ok(None) => write_made(no_file(alloc, script), out),
        Err(FileFault::Failed) => Status::ReadFault,
        Err(FileFault::OutOfMemory) => Status::OutOfMemory,
    }
}

/// Writes the state file of what the turns of these bytes leave, or which line of them is none of a script.
fn keep_bytes<S: Sink, C: Workers>(
    alloc: Global,
    workers: &C,
    script: &str,
    site: Site,
    bytes: Blob,
    out: &mut S,
) -> Status
    requires callers { AreCallers (C.callers workers.now) }
    requires apt { C.apt workers.now }
    requires ready { IsReady (site_view site) }
    ensures never_usage { result ≢ Status.Usage }
    ensures never_illegal { result ≢ Status.NotLegal }
    ensures no_read_fault { result ≢ Status.ReadFault }
    ensures written { EndsRun result (AnswersKept (C.callers workers.now) script.now (site_view site) (Some bytes)) (S.written out.old) (S.written out.new) }
    ensures through { HandsOn result (S.kept_back out.new) }
    ensures write_fault { result ≡ Status.WriteFault → Rose (S.faults out.old) (S.faults out.new) }
    ensures calm_sink { S.calm out.old → result ≢ Status.WriteFault }
    ensures no_world_fault { result ≢ Status.WorldFault }
{
    match turns_of(alloc, workers, bytes) {
        Ok(turns) => match keep_turns(alloc, workers, site, turns, MOST_TURNS) {
            Ok(file) => write_file(alloc, file, out),
            Err(_) => Status::OutOfMemory,
        },
        Err(ScriptError::BadScript { line }) => write_made(bad_script(alloc, script, line), out),
        Err(ScriptError::OutOfMemory) => Status::OutOfMemory,
    }
}

/// Writes a state file, in one piece; nothing if more turns came than may be taken.
fn write_file<S: Sink>(alloc: Global, file: Option<Text>, out: &mut S) -> Status
    ensures never_usage { result ≢ Status.Usage }
    ensures never_illegal { result ≢ Status.NotLegal }
    ensures no_read_fault { result ≢ Status.ReadFault }
    ensures written { EndsOutput result (answered file) (S.written out.old) (S.written out.new) }
    ensures through { HandsOn result (S.kept_back out.new) }
    ensures write_fault { result ≡ Status.WriteFault → Rose (S.faults out.old) (S.faults out.new) }
    ensures calm_sink { S.calm out.old → result ≢ Status.WriteFault }
    ensures no_world_fault { result ≢ Status.WorldFault }
{
    match file {
        Some(text) => match reply_of(alloc, text) {
            Ok(reply) => write_reply(&reply, out),
            Err(_) => Status::OutOfMemory,
        },
        None => write_spent(out),
    }
}

/// The reply that is this text.
fn reply_of(alloc: Global, text: Text) -> Result<Reply, OutOfMemory>
    ensures { IfOk result (λ r. replied (reply_view r) ≡ answered (Some text)) }
{
    Ok(Reply {
        lines: one_piece(alloc, text)?,
        diagnosed: false,
    })
}

fn one_piece(alloc: Global, text: Text) -> Result<Texts, OutOfMemory>
    ensures { IfOk result (λ pieces. concat pieces ≡ text) }
{
    let mut pieces = Texts::new(alloc);
    pieces.push(text)?;
    Ok(pieces)
}
