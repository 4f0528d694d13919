// The answer to a query.
ghost use Rattle.std.specs.Prelude.{◌≡◌, ◌≢◌, [], ◌∷◌, ◌++◌, ◌<◌, length, Option, Some, IfSome, IfOk};
ghost use Rattle.std.specs.List.{concat};
ghost use Rattle.site_edge.specs.Told.{Rose, find_file};
ghost use Rattle.site_model.specs.PlainSite.{site_view};
ghost use Rattle.site_phases.specs.Phases.{IsReady};
ghost use Rattle.site_query.specs.Lines.{Has};
ghost use Rattle.site_query.specs.Reading.{Tells};
ghost use Rattle.site_replies.specs.Replies.{reply_view};
ghost use Rattle.site_run.specs.Callers.{AreCallers};
ghost use Rattle.site_run.specs.Ends.{HandsOn};
ghost use Rattle.site_run.specs.Logs.{EndsRun, EndsOutput};
ghost use Rattle.run_replies.specs.Runs.{replied};
ghost use Rattle.site_answers.specs.SiteAnswers.{AnswersAsked, AnswersQueried, answered};

use crate::replay::{MOST_TURNS, turns_of};
use crate::spent::write_spent;
use run_replies::{write_made, write_reply};
use site_base::{Blob, OutOfMemory, Row, Text, Texts};
use site_edge::{FileFault, Files, Sink, Turn};
use site_model::Site;
use site_query::{Query, QueryError, read_query};
use site_replies::{Reply, bad_query, bad_script, no_file};
use site_run::{Status, Workers};
use site_text::ScriptError;
use std::alloc::Global;
use whole_runs::query_turns;

/// Writes what a query is answered once the turns of a script are over, whose events these workers take, over a site, or why it has no answer.
/// The script is read first, and the query only if it has turns. The workers are 1 to 64.
pub fn query_site<F: Files, S: Sink, C: Workers>(
    alloc: Global,
    workers: &C,
    script: &str,
    query: &str,
    site: Site,
    files: &mut F,
    out: &mut S,
) -> Status
    requires callers { AreCallers (C.callers workers.now) }
    requires apt { C.apt workers.now }
    requires ready { IsReady (site_view site) }
    ensures never_usage { result ≢ Status.Usage }
    ensures never_illegal { result ≢ Status.NotLegal }
    ensures written { EndsRun result (λ w. IfSome (F.told files.old) (λ all. AnswersQueried (C.callers workers.now) script.now query.now (site_view site) (find_file script.now all) (find_file query.now all) w)) (S.written out.old) (S.written out.new) }
    ensures through { HandsOn result (S.kept_back out.new) }
    ensures told { F.told files.new ≡ F.told files.old }
    ensures read_fault { result ≡ Status.ReadFault → Rose (F.faults files.old) (F.faults files.new) }
    ensures write_fault { result ≡ Status.WriteFault → Rose (S.faults out.old) (S.faults out.new) }
    ensures calm_files { F.calm files.old → result ≢ Status.ReadFault }
    ensures calm_sink { S.calm out.old → result ≢ Status.WriteFault }
    ensures no_world_fault { result ≢ Status.WorldFault }
{
    match files.read(script) {
        Ok(Some(bytes)) => after_bytes(alloc, workers, script, query, site, bytes, files, out),
        Ok(None) => write_made(no_file(alloc, script), out),
        Err(FileFault::Failed) => Status::ReadFault,
        Err(FileFault::OutOfMemory) => Status::OutOfMemory,
    }
}

/// Writes the answer once the turns of these bytes are over, or which line of them is none of a script.
fn after_bytes<F: Files, S: Sink, C: Workers>(
    alloc: Global,
    workers: &C,
    script: &str,
    query: &str,
    site: Site,
    bytes: Blob,
    files: &mut F,
    out: &mut S,
) -> Status
    requires callers { AreCallers (C.callers workers.now) }
    requires apt { C.apt workers.now }
    requires ready { IsReady (site_view site) }
    ensures never_usage { result ≢ Status.Usage }
    ensures never_illegal { result ≢ Status.NotLegal }
    ensures written { EndsRun result (λ w. IfSome (F.told files.old) (λ all. AnswersQueried (C.callers workers.now) script.now query.now (site_view site) (Some bytes) (find_file query.now all) w)) (S.written out.old) (S.written out.new) }
    ensures through { HandsOn result (S.kept_back out.new) }
    ensures told { F.told files.new ≡ F.told files.old }
    ensures read_fault { result ≡ Status.ReadFault → Rose (F.faults files.old) (F.faults files.new) }
    ensures write_fault { result ≡ Status.WriteFault → Rose (S.faults out.old) (S.faults out.new) }
    ensures calm_files { F.calm files.old → result ≢ Status.ReadFault }
    ensures calm_sink { S.calm out.old → result ≢ Status.WriteFault }
    ensures no_world_fault { result ≢ Status.WorldFault }
{
    match turns_of(alloc, workers, bytes) {
        Ok(turns) => after_turns(alloc, workers, query, site, turns, files, out),
        Err(ScriptError::BadScript { line }) => write_made(bad_script(alloc, script, line), out),
        Err(ScriptError::OutOfMemory) => Status::OutOfMemory,
    }
}

/// Reads the query, and writes what it is answered once these turns are over.
fn after_turns<F: Files, S: Sink, C: Workers>(
    alloc: Global,
    workers: &C,
    query: &str,
    site: Site,
    turns: Row<Turn>,
    files: &mut F,
    out: &mut S,
) -> Status
    requires callers { AreCallers (C.callers workers.now) }
    requires apt { C.apt workers.now }
    requires ready { IsReady (site_view site) }
    ensures never_usage { result ≢ Status.Usage }
    ensures never_illegal { result ≢ Status.NotLegal }
    ensures written { EndsRun result (λ w. IfSome (F.told files.old) (λ all. AnswersAsked (C.callers workers.now) query.now (find_file query.now all) (site_view site) turns w)) (S.written out.old) (S.written out.new) }
    ensures through { HandsOn result (S.kept_back out.new) }
    ensures told { F.told files.new ≡ F.told files.old }
    ensures read_fault { result ≡ Status.ReadFault → Rose (F.faults files.old) (F.faults files.new) }
    ensures write_fault { result ≡ Status.WriteFault → Rose (S.faults out.old) (S.faults out.new) }
    ensures calm_files { F.calm files.old → result ≢ Status.ReadFault }
    ensures calm_sink { S.calm out.old → result ≢ Status.WriteFault }
    ensures no_world_fault { result ≢ Status.WorldFault }
{
    match files.read(query) {
        Ok(Some(bytes)) => answer_bytes(alloc, workers, query, site, turns, &bytes, out),
        Ok(None) => write_made(no_file(alloc, query), out),
        Err(FileFault::Failed) => Status::ReadFault,
        Err(FileFault::OutOfMemory) => Status::OutOfMemory,
    }
}

/// Writes what the query of these bytes is answered once these turns are over, or which line of them is none of a query.
fn answer_bytes<S: Sink, C: Workers>(
    alloc: Global,
    workers: &C,
    name: &str,
    site: Site,
    turns: Row<Turn>,
    bytes: &Blob,
    out: &mut S,
) -> Status
    requires callers { AreCallers (C.callers workers.now) }
    requires apt { C.apt workers.now }
    requires ready { IsReady (site_view site) }
    ensures never_usage { result ≢ Status.Usage }
    ensures never_illegal { result ≢ Status.NotLegal }
    ensures no_read_fault { result ≢ Status.ReadFault }
    ensures written { EndsRun result (AnswersAsked (C.callers workers.now) name.now (Some bytes.now) (site_view site) turns) (S.written out.old) (S.written out.new) }
    ensures through { HandsOn result (S.kept_back out.new) }
    ensures write_fault { result ≡ Status.WriteFault → Rose (S.faults out.old) (S.faults out.new) }
    ensures calm_sink { S.calm out.old → result ≢ Status.WriteFault }
    ensures no_world_fault { result ≢ Status.WorldFault }
{
    match query_of(alloc, bytes) {
        Ok(query) => match query_turns(alloc, workers, site, turns, &query, MOST_TURNS) {
            Ok(answer) => write_answer(alloc, answer, out),
            Err(_) => Status::OutOfMemory,
        },
        Err(QueryError::BadQuery { line }) => write_made(bad_query(alloc, name, line), out),
        Err(QueryError::OutOfMemory) => Status::OutOfMemory,
    }
}

/// The query that these bytes tell.
fn query_of(alloc: Global, bytes: &Blob) -> Result<Query, QueryError>
    ensures { Tells (Has bytes.now) result }
{
    read_query(alloc, bytes.as_slice())
}

/// Writes the text of an answer; nothing if more turns came than may be taken.
fn write_answer<S: Sink>(alloc: Global, answer: Option<Text>, out: &mut S) -> Status
    ensures never_usage { result ≢ Status.Usage }
    ensures never_illegal { result ≢ Status.NotLegal }
    ensures no_read_fault { result ≢ Status.ReadFault }
    ensures written { EndsOutput result (answered answer) (S.written out.old) (S.written out.new) }
    ensures through { HandsOn result (S.kept_back out.new) }
    ensures write_fault { result ≡ Status.WriteFault → Rose (S.faults out.old) (S.faults out.new) }
    ensures calm_sink { S.calm out.old → result ≢ Status.WriteFault }
    ensures no_world_fault { result ≢ Status.WorldFault }
{
    match answer {
        Some(text) => match told_with(alloc, &text) {
            Ok(reply) => write_reply(&reply, out),
            Err(_) => Status::OutOfMemory,
        },
        None => write_spent(out),
    }
}

/// The reply that is this text, line by line.
fn told_with(alloc: Global, text: &Text) -> Result<Reply, OutOfMemory>
    ensures { IfOk result (λ r. replied (reply_view r) ≡ answered (Some text.now)) }
{
    Ok(Reply {
        lines: lines_of(alloc, text.as_str())?,
        diagnosed: false,
    })
}

/// The lines of a text, each with its newline.
fn lines_of(alloc: Global, text: &str) -> Result<Texts, OutOfMemory>
    ensures { IfOk result (λ lines. concat lines ≡ text.now) }
{
    let mut lines = Texts::new(alloc);
    let mut rest = text;
    while let Some((line, behind)) = cut_line(rest) {
        lines.push(with_newline(alloc, line)?)?;
        rest = behind;
    }
    if !rest.is_empty() {
        lines.push(Text::copy_of(alloc, rest)?)?;
    }
    Ok(lines)
}

fn with_newline(alloc: Global, line: &str) -> Result<Text, OutOfMemory>
    ensures { IfOk result (λ t. t ≡ line.now ++ 10 ∷ []) }
{
    let mut text = Text::copy_of(alloc, line)?;
    text.push('\n')?;
    Ok(text)
}

/// The first line of a text, and what follows its newline.
fn cut_line(text: &str) -> Option<(&str, &str)>
    ensures cut { IfSome result (λ x. text.now ≡ x.0.now ++ 10 ∷ x.1.now) }
    ensures shorter { IfSome result (λ x. length x.1.now < length text.now) }
{
    text.split_once('\n')
}
