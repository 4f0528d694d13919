// More turns than may be taken.
ghost use Rattle.std.specs.Prelude.{◌≡◌, ◌≢◌, None};
ghost use Rattle.site_edge.specs.Told.{Rose};
ghost use Rattle.site_answers.specs.SiteAnswers.{answered};
ghost use Rattle.site_run.specs.Ends.{HandsOn};
ghost use Rattle.site_run.specs.Logs.{EndsOutput};

use site_edge::{Sink, SinkFault};
use site_run::Status;

/// Writes nothing, since more turns came than may be taken, and hands on what was kept back.
pub(crate) fn write_spent<S: Sink>(out: &mut S) -> Status
    ensures never_usage { result ≢ Status.Usage }
    ensures never_illegal { result ≢ Status.NotLegal }
    ensures no_read_fault { result ≢ Status.ReadFault }
    ensures written { EndsOutput result (answered None) (S.written out.old) (S.written out.new) }
    ensures through { HandsOn result (S.kept_back out.new) }
    ensures write_fault { result ≡ Status.WriteFault → Rose (S.faults out.old) (S.faults out.new) }
    ensures calm_sink { S.calm out.old → result ≢ Status.WriteFault }
    ensures no_world_fault { result ≢ Status.WorldFault }
{
    match out.flush() {
        Ok(()) => Status::TurnsSpent,
        Err(SinkFault::Failed) => Status::WriteFault,
        Err(SinkFault::OutOfMemory) => Status::OutOfMemory,
    }
}
