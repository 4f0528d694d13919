// Reading lines of scripts.
ghost use Rattle.std.specs.Prelude.{◌≡◌, ◌<◌, ◌≤◌, length, IfOk, IfSome, MatchOption};
ghost use Rattle.site_text.specs.ScriptReading.{got, bad, line_at, turn_at, report_at, command_at, number_at, quoted_line_at, with_status};

use crate::decimals::read_number;
use crate::script_line::ScriptLine;
use crate::unquoting::{behind_byte, read_quoted};
use site_base::{Blob, Moment, OutOfMemory};
use site_edge::Report;
use std::alloc::Global;

/// A moment has at most so many digits.
const MOMENT_DIGITS: usize = 11;

/// An order's number has at most so many digits.
const ORDER_DIGITS: usize = 19;

/// A status has at most so many digits.
const STATUS_DIGITS: usize = 3;

/// The line at the front of some bytes, with its newline, and what stands behind it.
#[tactic(auto, unfolding(crate::specs::ScriptReading::line_at))]
pub(crate) fn read_script_line(
    alloc: Global,
    bytes: &[u8],
) -> Result<Option<(ScriptLine, &[u8])>, OutOfMemory>
    ensures value { IfOk result (λ r. MatchOption r (line_at bytes.now ≡ bad) (λ x. line_at bytes.now ≡ got x.0 x.1.now)) }
    ensures shorter { IfOk result (λ r. IfSome r (λ x. length x.1.now < length bytes.now)) }
{
    if let Some(rest) = bytes.strip_prefix(b"turn ") {
        return Ok(read_turn(rest));
    }
    if let Some(rest) = bytes.strip_prefix(b"report ") {
        return read_report(alloc, rest);
    }
    if let Some(rest) = bytes.strip_prefix(b"line ") {
        return read_command(alloc, rest);
    }
    Ok(None)
}

/// The moment of a turn, and what stands behind its line.
#[tactic(auto, unfolding(crate::specs::ScriptReading::turn_at))]
fn read_turn(bytes: &[u8]) -> Option<(ScriptLine, &[u8])>
    ensures value { MatchOption result (turn_at bytes.now ≡ bad) (λ x. turn_at bytes.now ≡ got x.0 x.1.now) }
    ensures shorter { IfSome result (λ x. length x.1.now ≤ length bytes.now) }
{
    let (moment, rest) = read_number(bytes, MOMENT_DIGITS, b'\n')?;
    let moment = Moment::of(moment)?;
    Some((ScriptLine::Turn(moment), rest))
}

/// Order, status and output of a report, and what stands behind its line.
#[tactic(auto, unfolding(crate::specs::ScriptReading::report_at))]
fn read_report(alloc: Global, bytes: &[u8]) -> Result<Option<(ScriptLine, &[u8])>, OutOfMemory>
    ensures value { IfOk result (λ r. MatchOption r (report_at bytes.now ≡ bad) (λ x. report_at bytes.now ≡ got x.0 x.1.now)) }
    ensures shorter { IfOk result (λ r. IfSome r (λ x. length x.1.now ≤ length bytes.now)) }
{
    match read_number(bytes, ORDER_DIGITS, b' ') {
        Some((order, rest)) => read_report_of(alloc, order, rest),
        None => Ok(None),
    }
}

/// The report of an order, and what stands behind its line.
fn read_report_of(
    alloc: Global,
    order: u64,
    bytes: &[u8],
) -> Result<Option<(ScriptLine, &[u8])>, OutOfMemory>
    ensures value { IfOk result (λ r. MatchOption r (with_status order (number_at 32 3 bytes.now) ≡ bad) (λ x. with_status order (number_at 32 3 bytes.now) ≡ got x.0 x.1.now)) }
    ensures shorter { IfOk result (λ r. IfSome r (λ x. length x.1.now ≤ length bytes.now)) }
{
    let Some((status, rest)) = read_number(bytes, STATUS_DIGITS, b' ') else {
        return Ok(None);
    };
    let Ok(status) = u8::try_from(status) else {
        return Ok(None);
    };
    let Some((output, rest)) = read_quoted_line(alloc, rest)? else {
        return Ok(None);
    };
    let report = Report {
        order,
        status,
        output,
    };
    Ok(Some((ScriptLine::Report(report), rest)))
}

/// A command line, and what stands behind its line of the script.
#[tactic(auto, unfolding(crate::specs::ScriptReading::command_at))]
fn read_command(alloc: Global, bytes: &[u8]) -> Result<Option<(ScriptLine, &[u8])>, OutOfMemory>
    ensures value { IfOk result (λ r. MatchOption r (command_at bytes.now ≡ bad) (λ x. command_at bytes.now ≡ got x.0 x.1.now)) }
    ensures shorter { IfOk result (λ r. IfSome r (λ x. length x.1.now ≤ length bytes.now)) }
{
    match read_quoted_line(alloc, bytes)? {
        Some((line, rest)) => Ok(Some((ScriptLine::Line(line), rest))),
        None => Ok(None),
    }
}

/// A quoted text, and what stands behind the newline that follows it.
#[tactic(auto, unfolding(crate::specs::ScriptReading::quoted_line_at))]
fn read_quoted_line(alloc: Global, bytes: &[u8]) -> Result<Option<(Blob, &[u8])>, OutOfMemory>
    ensures value { IfOk result (λ r. MatchOption r (quoted_line_at bytes.now ≡ bad) (λ x. quoted_line_at bytes.now ≡ got x.0 x.1.now)) }
    ensures shorter { IfOk result (λ r. IfSome r (λ x. length x.1.now ≤ length bytes.now)) }
{
    let Some((text, rest)) = read_quoted(alloc, bytes)? else {
        return Ok(None);
    };
    match behind_byte(rest, b'\n') {
        Some(rest) => Ok(Some((text, rest))),
        None => Ok(None),
    }
}
