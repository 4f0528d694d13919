// What is written of a log.
ghost use Rattle.std.specs.Prelude.{◌≡◌, ◌≢◌, Some, IfSome};
ghost use Rattle.site_edge.specs.Told.{Rose, find_file};
ghost use Rattle.site_model.specs.PlainSite.{site_view};
ghost use Rattle.site_phases.specs.Phases.{IsReady};
ghost use Rattle.site_run.specs.Callers.{AreCallers};
ghost use Rattle.site_run.specs.Ends.{HandsOn};
ghost use Rattle.site_run.specs.Logs.{EndsRun};
ghost use Rattle.log_audits.specs.Audits.{AnswersAudited};

use crate::verdicts::write_verdict;
use run_replies::write_made;
use site_audit::audit;
use site_base::Blob;
use site_edge::{FileFault, Files, Sink};
use site_model::Site;
use site_replies::no_file;
use site_run::Status;
use std::alloc::Global;

/// Writes whether a log is one that a run with so many workers, from 1 to 64, writes over a site, and else in which line it goes wrong; or
/// that it isn't there. It ends with `NotLegal` if it goes wrong.
pub fn audit_site<F: Files, S: Sink>(
    alloc: Global,
    callers: u32,
    log: &str,
    site: Site,
    files: &mut F,
    out: &mut S,
) -> Status
    requires callers { AreCallers callers }
    requires ready { IsReady (site_view site) }
    ensures never_usage { result ≢ Status.Usage }
    ensures written { EndsRun result (λ w. IfSome (F.told files.old) (λ all. AnswersAudited callers log.now (site_view site) (find_file log.now all) w)) (S.written out.old) (S.written out.new) }
    ensures through { HandsOn result (S.kept_back out.new) }
    ensures told { F.told files.new ≡ F.told files.old }
    ensures read_fault { result ≡ Status.ReadFault → Rose (F.faults files.old) (F.faults files.new) }
    ensures write_fault { result ≡ Status.WriteFault → Rose (S.faults out.old) (S.faults out.new) }
    ensures calm_files { F.calm files.old → result ≢ Status.ReadFault }
    ensures calm_sink { S.calm out.old → result ≢ Status.WriteFault }
    ensures no_world_fault { result ≢ Status.WorldFault }
{
    match files.read(log) {
        Ok(Some(bytes)) => audit_bytes(alloc, callers, log, site, &bytes, out),
        Ok(None) => write_made(no_file(alloc, log), out),
        Err(FileFault::Failed) => Status::ReadFault,
        Err(FileFault::OutOfMemory) => Status::OutOfMemory,
    }
}

/// Writes whether these bytes are such a log.
fn audit_bytes<S: Sink>(
    alloc: Global,
    callers: u32,
    log: &str,
    site: Site,
    bytes: &Blob,
    out: &mut S,
) -> Status
    requires callers { AreCallers callers }
    requires ready { IsReady (site_view site) }
    ensures never_usage { result ≢ Status.Usage }
    ensures no_read_fault { result ≢ Status.ReadFault }
    ensures written { EndsRun result (AnswersAudited callers log.now (site_view site) (Some bytes.now)) (S.written out.old) (S.written out.new) }
    ensures through { HandsOn result (S.kept_back out.new) }
    ensures write_fault { result ≡ Status.WriteFault → Rose (S.faults out.old) (S.faults out.new) }
    ensures calm_sink { S.calm out.old → result ≢ Status.WriteFault }
    ensures no_world_fault { result ≢ Status.WorldFault }
{
    match audit(alloc, site, callers, bytes.as_slice()) {
        Ok(verdict) => write_verdict(alloc, verdict, out),
        Err(_) => Status::OutOfMemory,
    }
}
