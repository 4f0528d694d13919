// Lines that are written.
ghost use Rattle.std.specs.Prelude.{◌≡◌, ◌≤◌, OnOk, OnErr, IsErrOf, ◌≢◌, Err};
ghost use Rattle.std.specs.List.{concat};
ghost use Rattle.site_edge.specs.Lists.{Adds, AddsPart};
ghost use Rattle.site_edge.specs.Told.{Rose};

use site_base::Text;
use site_edge::{Sink, SinkFault};

/// Writes the lines, each by one call, and then hands on all that is kept back.
///
/// `Failed` comes only if a line could not be written or handed on; a prefix of the lines is written then.
pub fn write_lines<S: Sink>(out: &mut S, lines: &[Text]) -> Result<(), SinkFault>
    ensures ok { OnOk result (Adds (concat lines.now) (S.written out.old) (S.written out.new)) }
    ensures through { OnOk result (S.kept_back out.new ≡ 0) }
    ensures err { OnErr result (AddsPart (concat lines.now) (S.written out.old) (S.written out.new)) }
    ensures cause { IsErrOf result SinkFault.Failed → Rose (S.faults out.old) (S.faults out.new) }
    ensures counts { S.faults out.old ≤ S.faults out.new }
    ensures calm { S.calm out.old → S.calm out.new }
    ensures unfailing { S.calm out.old → result ≢ Err SinkFault.Failed }
{
    put_lines(out, lines)?;
    out.flush()
}

/// Writes the lines, each by one call; they may be kept back.
fn put_lines<S: Sink>(out: &mut S, lines: &[Text]) -> Result<(), SinkFault>
    ensures ok { OnOk result (Adds (concat lines.now) (S.written out.old) (S.written out.new)) }
    ensures err { OnErr result (AddsPart (concat lines.now) (S.written out.old) (S.written out.new)) }
    ensures cause { IsErrOf result SinkFault.Failed → Rose (S.faults out.old) (S.faults out.new) }
    ensures counts { S.faults out.old ≤ S.faults out.new }
    ensures calm { S.calm out.old → S.calm out.new }
    ensures unfailing { S.calm out.old → result ≢ Err SinkFault.Failed }
{
    for line in lines {
        out.put(line.as_bytes())?;
    }
    Ok(())
}
