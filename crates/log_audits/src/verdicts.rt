// The line of a verdict.
ghost use Rattle.std.specs.Prelude.{◌≡◌, ◌≢◌, IfOk};
ghost use Rattle.std.specs.List.{concat};
ghost use Rattle.site_edge.specs.Told.{Rose};
ghost use Rattle.site_audit.specs.declared.auditing.Verdict.TheVariants as verdict_as;
ghost use Rattle.site_run.specs.Ends.{HandsOn};
ghost use Rattle.site_run.specs.Logs.{EndsOutput};
ghost use Rattle.log_audits.specs.Audits.{judged, verdict_line as line_of};

use run_text::write_lines;
use site_audit::Verdict;
use site_base::{OutOfMemory, Text, Texts};
use site_edge::{Sink, SinkFault};
use site_run::Status;
use std::alloc::Global;

/// Writes a verdict, in one piece.
pub(crate) fn write_verdict<S: Sink>(alloc: Global, verdict: Verdict, out: &mut S) -> Status
    ensures never_usage { result ≢ Status.Usage }
    ensures no_read_fault { result ≢ Status.ReadFault }
    ensures written { EndsOutput result (judged verdict) (S.written out.old) (S.written out.new) }
    ensures through { HandsOn result (S.kept_back out.new) }
    ensures write_fault { result ≡ Status.WriteFault → Rose (S.faults out.old) (S.faults out.new) }
    ensures calm_sink { S.calm out.old → result ≢ Status.WriteFault }
    ensures no_world_fault { result ≢ Status.WorldFault }
{
    match lines_of(alloc, verdict) {
        Ok(lines) => write_lines_of(&lines, verdict, out),
        Err(_) => Status::OutOfMemory,
    }
}

/// Writes the lines of a verdict.
fn write_lines_of<S: Sink>(lines: &Texts, verdict: Verdict, out: &mut S) -> Status
    requires { concat lines.now ≡ line_of verdict }
    ensures never_usage { result ≢ Status.Usage }
    ensures no_read_fault { result ≢ Status.ReadFault }
    ensures written { EndsOutput result (judged verdict) (S.written out.old) (S.written out.new) }
    ensures through { HandsOn result (S.kept_back out.new) }
    ensures write_fault { result ≡ Status.WriteFault → Rose (S.faults out.old) (S.faults out.new) }
    ensures calm_sink { S.calm out.old → result ≢ Status.WriteFault }
    ensures no_world_fault { result ≢ Status.WorldFault }
{
    match write_lines(out, lines.as_slice()) {
        Ok(()) => match verdict {
            Verdict::Legal => Status::Done,
            Verdict::Illegal { .. } => Status::NotLegal,
        },
        Err(SinkFault::Failed) => Status::WriteFault,
        Err(SinkFault::OutOfMemory) => Status::OutOfMemory,
    }
}

/// The one line that tells a verdict.
fn lines_of(alloc: Global, verdict: Verdict) -> Result<Texts, OutOfMemory>
    ensures { IfOk result (λ lines. concat lines ≡ line_of verdict) }
{
    let line = verdict_line(alloc, verdict)?;
    let mut lines = Texts::new(alloc);
    lines.push(line)?;
    Ok(lines)
}

fn verdict_line(alloc: Global, verdict: Verdict) -> Result<Text, OutOfMemory>
    ensures { IfOk result (λ t. t ≡ line_of verdict) }
{
    match verdict {
        Verdict::Legal => Text::copy_of(alloc, "legal\n"),
        Verdict::Illegal { line } => illegal_line(alloc, line),
    }
}

/// The line that tells where a log goes wrong.
fn illegal_line(alloc: Global, line: u64) -> Result<Text, OutOfMemory>
    ensures { IfOk result (λ t. t ≡ line_of (verdict_as.Illegal line)) }
{
    let mut text = Text::copy_of(alloc, "illegal ")?;
    text.push_decimal(line)?;
    text.push('\n')?;
    Ok(text)
}
