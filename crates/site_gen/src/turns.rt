// The turns of the generated site.
ghost use Rattle.std.specs.Prelude.{◌≡◌, ◌≤◌, IfOk};
ghost use Rattle.site_gen.specs.Turns.{result_line as line_of, turn_of as turn_in};

use crate::root::push_name;
use site_base::{Blob, Moment, OutOfMemory, Row, Text};
use site_edge::Turn;
use std::alloc::Global;

/// The turn of this number over so many hosts: a result for each host's service, the host of the least number first. Turn after
/// turn the status of each goes round from 0 to 3.
///
/// # Errors
///
/// `OutOfMemory` if there is none for its lines.
pub fn turn_of(alloc: Global, hosts: u32, number: u64) -> Result<Turn, OutOfMemory>
    requires number { number ≤ 6 }
    ensures { IfOk result (λ t. t ≡ turn_in hosts number) }
{
    let mut lines = Row::new(alloc);
    for host in 0..hosts {
        lines.push(result_line(alloc, host, number)?)?;
    }
    Ok(Turn {
        moment: Moment::of(100 * number).unwrap(),
        reports: Row::new(alloc),
        lines,
    })
}

/// The line that tells the result of a host's service.
fn result_line(alloc: Global, host: u32, turn: u64) -> Result<Blob, OutOfMemory>
    requires turn { turn ≤ 6 }
    ensures { IfOk result (λ b. b ≡ line_of turn host) }
{
    let mut line = Text::copy_of(alloc, "[1] PROCESS_SERVICE_CHECK_RESULT;")?;
    push_name(&mut line, host)?;
    line.push_str(";s;")?;
    line.push_decimal((u64::from(host) + turn) % 4)?;
    line.push_str(";x")?;
    Blob::copy_of(alloc, line.as_bytes())
}
