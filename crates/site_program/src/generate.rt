// Generated sites.
ghost use Rattle.std.specs.Prelude.{◌≡◌, ◌≢◌, Some, IfOk};
ghost use Rattle.site_edge.specs.Told.{Rose};
ghost use Rattle.site_model.specs.PlainSite.{site_view};
ghost use Rattle.site_phases.specs.Phases.{IsReady};
ghost use Rattle.site_replies.specs.Replies.{reply_view};
ghost use Rattle.run_replies.specs.Runs.{replied};
ghost use Rattle.site_run.specs.Ends.{HandsOn};
ghost use Rattle.site_run.specs.Logs.{EndsRun};
ghost use Rattle.site_program.specs.TaskAnswers.{AnswersGenerated, IsCounted, files_of as files_in};

use crate::config::status_of;
use run_replies::{write_made, write_reply};
use site_base::{Blob, OutOfMemory, Row, Text};
use site_edge::{Files, MemFiles, Sink};
use site_gen::{count_run, lines_of, root_text};
use site_load::config_answer;
use site_model::Site;
use site_phases::Answer;
use site_replies::{Reply, count_listed, diagnoses};
use site_run::Status;
use std::alloc::Global;

/// The name of the one file of a generated site.
const ROOT: &str = "gen";

/// Commits a generated site of so many hosts, runs its turns, and writes what is counted of both. No files are read but its own, which
/// lies in memory.
pub fn generate<S: Sink>(alloc: Global, hosts: u32, out: &mut S) -> Status
    ensures never_usage { result ≢ Status.Usage }
    ensures never_illegal { result ≢ Status.NotLegal }
    ensures no_read_fault { result ≢ Status.ReadFault }
    ensures written { EndsRun result (AnswersGenerated hosts) (S.written out.old) (S.written out.new) }
    ensures through { HandsOn result (S.kept_back out.new) }
    ensures write_fault { result ≡ Status.WriteFault → Rose (S.faults out.old) (S.faults out.new) }
    ensures calm_sink { S.calm out.old → result ≢ Status.WriteFault }
    ensures no_world_fault { result ≢ Status.WorldFault }
{
    let Ok(mut files) = files_of(alloc, hosts) else {
        return Status::OutOfMemory;
    };
    match config_answer(alloc, &mut files, ROOT) {
        Ok(Answer::Site(site)) => write_counts(alloc, hosts, site, out),
        Ok(Answer::Diags { files, list }) => {
            write_made(diagnoses(alloc, &files, list.as_slice()), out)
        }
        Err(fault) => status_of(fault),
    }
}

/// The one file of a generated site.
fn files_of(alloc: Global, hosts: u32) -> Result<MemFiles, OutOfMemory>
    ensures told { IfOk result (λ files. ⟦<MemFiles as Files>⟧.told files ≡ Some (files_in hosts)) }
    ensures calm { IfOk result (λ files. ⟦<MemFiles as Files>⟧.calm files) }
{
    let text = root_text(alloc, hosts)?;
    let mut files = Row::new(alloc);
    files.push((
        Text::copy_of(alloc, ROOT)?,
        Blob::copy_of(alloc, text.as_bytes())?,
    ))?;
    Ok(MemFiles::new(alloc, files, Row::new(alloc)))
}

/// Writes what is counted of a generated site and of its run.
fn write_counts<S: Sink>(alloc: Global, hosts: u32, site: Site, out: &mut S) -> Status
    requires ready { IsReady (site_view site) }
    ensures never_usage { result ≢ Status.Usage }
    ensures never_illegal { result ≢ Status.NotLegal }
    ensures no_read_fault { result ≢ Status.ReadFault }
    ensures written { EndsRun result (IsCounted hosts (site_view site)) (S.written out.old) (S.written out.new) }
    ensures through { HandsOn result (S.kept_back out.new) }
    ensures write_fault { result ≡ Status.WriteFault → Rose (S.faults out.old) (S.faults out.new) }
    ensures calm_sink { S.calm out.old → result ≢ Status.WriteFault }
    ensures no_world_fault { result ≢ Status.WorldFault }
{
    match counts(alloc, hosts, site) {
        Ok(reply) => write_reply(&reply, out),
        Err(_) => Status::OutOfMemory,
    }
}

/// The lines that tell what is counted.
fn counts(alloc: Global, hosts: u32, site: Site) -> Result<Reply, OutOfMemory>
    requires ready { IsReady (site_view site) }
    ensures { IfOk result (λ r. IsCounted hosts (site_view site) (replied (reply_view r))) }
{
    let objects = count_listed(site.objects.as_slice());
    let counts = count_run(alloc, hosts, site)?;
    Ok(Reply {
        lines: lines_of(alloc, objects, &counts)?,
        diagnosed: false,
    })
}
