// Replies that are written.
ghost use Rattle.std.specs.Prelude.{◌≡◌, ◌≢◌, IfOk};
ghost use Rattle.site_edge.specs.Told.{Rose};
ghost use Rattle.site_replies.specs.Replies.{PlainReply, reply_view};
ghost use Rattle.run_replies.specs.Runs.{replied};
ghost use Rattle.site_run.specs.Ends.{HandsOn};
ghost use Rattle.site_run.specs.Logs.{EndsOutput};

use run_text::write_lines;
use site_base::OutOfMemory;
use site_edge::{Sink, SinkFault};
use site_replies::Reply;
use site_run::Status;

/// Writes a reply.
pub fn write_reply<S: Sink>(reply: &Reply, out: &mut S) -> Status
    ensures never_usage { result ≢ Status.Usage }
    ensures never_illegal { result ≢ Status.NotLegal }
    ensures no_read_fault { result ≢ Status.ReadFault }
    ensures written { EndsOutput result (replied (reply_view reply.now)) (S.written out.old) (S.written out.new) }
    ensures through { HandsOn result (S.kept_back out.new) }
    ensures write_fault { result ≡ Status.WriteFault → Rose (S.faults out.old) (S.faults out.new) }
    ensures calm_sink { S.calm out.old → result ≢ Status.WriteFault }
    ensures no_world_fault { result ≢ Status.WorldFault }
{
    match write_lines(out, reply.lines.as_slice()) {
        Ok(()) if reply.diagnosed => Status::Diagnosed,
        Ok(()) => Status::Done,
        Err(SinkFault::Failed) => Status::WriteFault,
        Err(SinkFault::OutOfMemory) => Status::OutOfMemory,
    }
}

/// Writes a reply, if there was memory for it.
pub fn write_made<S: Sink>(reply: Result<Reply, OutOfMemory>, out: &mut S) -> Status
    ensures never_usage { result ≢ Status.Usage }
    ensures never_illegal { result ≢ Status.NotLegal }
    ensures no_read_fault { result ≢ Status.ReadFault }
    ensures written { (r : PlainReply) → IfOk reply (λ x. reply_view x ≡ r) → EndsOutput result (replied r) (S.written out.old) (S.written out.new) }
    ensures through { HandsOn result (S.kept_back out.new) }
    ensures write_fault { result ≡ Status.WriteFault → Rose (S.faults out.old) (S.faults out.new) }
    ensures calm_sink { S.calm out.old → result ≢ Status.WriteFault }
    ensures no_world_fault { result ≢ Status.WorldFault }
{
    match reply {
        Ok(reply) => write_reply(&reply, out),
        Err(_) => Status::OutOfMemory,
    }
}
