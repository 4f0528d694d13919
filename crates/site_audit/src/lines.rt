// Reading the lines of a log.
ghost use Rattle.std.specs.Prelude.{◌≡◌, ◌∷◌, [], Some, length, IfOk};
ghost use Rattle.site_model.specs.PlainSite.{PlainSite};
ghost use Rattle.log_text.specs.EntryTwo.{AreTexts};
ghost use Rattle.event_text.specs.Faults.{fault_name};
ghost use Rattle.log_text.specs.EntryReading.{ended};
ghost use Rattle.log_text.specs.Fronts.{spelled_at, Gives};
ghost use Rattle.log_text.specs.SiteNames.{names_of, names_view, HasAllNames};
ghost use Rattle.site_audit.specs.LogLines.{told_line, IsLogLine, IsWritten};
ghost use Rattle.site_audit.specs.LineReading.{command_at, entry_line_read, fault_at, lacking_at, line_read, order_at, refused_line_at, refused_report_at, started_at, styled_read, turn_at, words_at, words_within};

use crate::fields::{behind, read_moment, read_name, read_number, read_text, strip};
use crate::log_line::LogLine;
use event_text::LineFault;
use log_text::{EntryError, SiteNames, read_entry, read_entry_two};
use run_text::Style;
use site_model::{Entry, Names};
use std::alloc::Global;

const FAULTS: [LineFault; 9] = [
    LineFault::NotText,
    LineFault::NoBracket,
    LineFault::BadMoment,
    LineFault::UnknownCommand,
    LineFault::FieldCount,
    LineFault::UnknownCheckable,
    LineFault::BadNumber,
    LineFault::BadSpan,
    LineFault::PassiveOff,
];

/// What a line of a log tells, which has its newline.
///
/// # Errors
///
/// `BadLine` if it is no line of a log of this version, and `OutOfMemory` if there is too little memory for an entry or a name.
pub(crate) fn read_line(
    alloc: Global,
    style: Style,
    names: &SiteNames,
    checkables: &Names,
    bytes: &[u8],
) -> Result<LogLine, EntryError>
    requires { checkables.now ≡ (names_view names.now).checkables }
    ensures value { Gives (λ x. x) result (line_read style (names_view names.now) bytes.now) }
    ensures found { (s : PlainSite) → names_view names.now ≡ names_of s → IfOk result (IsLogLine style s bytes.now) }
    ensures only { (s : PlainSite) (l : LogLine) → names_view names.now ≡ names_of s → HasAllNames s → AreTexts (names_of s) → IsWritten style s bytes.now l → Gives {Y = LogLine} (λ x. x) result (Some (told_line style l)) }
{
    read_any(alloc, style, names, checkables, bytes)
}

#[tactic(auto, unfolding(crate::specs::LineReading::line_read))]
fn read_any(
    alloc: Global,
    style: Style,
    names: &SiteNames,
    checkables: &Names,
    bytes: &[u8],
) -> Result<LogLine, EntryError>
    requires { checkables.now ≡ (names_view names.now).checkables }
    ensures { Gives (λ x. x) result (line_read style (names_view names.now) bytes.now) }
{
    if let Some(rest) = bytes.strip_prefix(b"turn ") {
        return read_turn(rest);
    }
    if let Some(rest) = bytes.strip_prefix(b"refused line ") {
        return read_refused_line(rest);
    }
    if let Some(rest) = bytes.strip_prefix(b"refused report ") {
        return read_refused_report(rest);
    }
    if let Some(rest) = bytes.strip_prefix(b"order ") {
        return read_order(alloc, style, names, checkables, rest);
    }
    read_entry_line(alloc, style, names, bytes)
}

#[tactic(auto, unfolding(crate::specs::LineReading::turn_at))]
fn read_turn(bytes: &[u8]) -> Result<LogLine, EntryError>
    ensures { Gives (λ x. x) result (turn_at bytes.now) }
{
    let (number, rest) = read_number(bytes)?;
    let rest = behind(rest, " ")?;
    let (moment, rest) = match read_moment(rest) {
        Ok(told) => told,
        Err(error) => return Err(error),
    };
    end(LogLine::Turn { number, moment }, rest)
}

#[tactic(auto, unfolding(crate::specs::LineReading::refused_line_at))]
fn read_refused_line(bytes: &[u8]) -> Result<LogLine, EntryError>
    ensures { Gives (λ x. x) result (refused_line_at bytes.now) }
{
    let (number, rest) = read_number(bytes)?;
    let rest = behind(rest, " ")?;
    let (fault, rest) = read_fault(rest)?;
    end(LogLine::RefusedLine { number, fault }, rest)
}

#[tactic(auto, unfolding(crate::specs::LineReading::fault_at))]
fn read_fault(bytes: &[u8]) -> Result<(LineFault, &[u8]), EntryError>
    ensures { Gives (λ x. (x.0, x.1.now)) result (fault_at bytes.now) }
{
    read_fault_among(&FAULTS, bytes)
}

/// The first fault of these whose name stands there.
fn read_fault_among<'a>(
    faults: &[LineFault],
    bytes: &'a [u8],
) -> Result<(LineFault, &'a [u8]), EntryError>
    ensures { Gives (λ x. (x.0, x.1.now)) result (spelled_at fault_name faults.now bytes.now) }
{
    for fault in faults {
        if let Some(rest) = bytes.strip_prefix(fault.name().as_bytes()) {
            return Ok((*fault, rest));
        }
    }
    Err(EntryError::BadLine)
}

#[tactic(auto, unfolding(crate::specs::LineReading::refused_report_at))]
fn read_refused_report(bytes: &[u8]) -> Result<LogLine, EntryError>
    ensures { Gives (λ x. x) result (refused_report_at bytes.now) }
{
    let (order, rest) = read_number(bytes)?;
    end(LogLine::RefusedReport { order }, rest)
}

#[tactic(auto, unfolding(crate::specs::LineReading::order_at))]
fn read_order(
    alloc: Global,
    style: Style,
    names: &SiteNames,
    checkables: &Names,
    bytes: &[u8],
) -> Result<LogLine, EntryError>
    requires { checkables.now ≡ (names_view names.now).checkables }
    ensures { Gives (λ x. x) result (order_at style (names_view names.now) bytes.now) }
{
    let (number, rest) = read_number(bytes)?;
    let rest = behind(rest, " ")?;
    let (checkable, rest) = read_name(alloc, rest, checkables)?;
    read_command(alloc, style, number, checkable, rest)
}

/// The order of this number of a checkable, after its name.
fn read_command(
    alloc: Global,
    style: Style,
    number: u64,
    checkable: u32,
    bytes: &[u8],
) -> Result<LogLine, EntryError>
    ensures { Gives (λ x. x) result (command_at style number checkable bytes.now) }
{
    match bytes.strip_prefix(b" missing ") {
        Some(rest) => read_lacking(alloc, number, checkable, rest),
        None => read_started(alloc, style, number, checkable, bytes),
    }
}

fn read_lacking(
    alloc: Global,
    number: u64,
    checkable: u32,
    bytes: &[u8],
) -> Result<LogLine, EntryError>
    ensures { Gives (λ x. x) result (lacking_at number checkable bytes.now) }
{
    let (_, rest) = read_text(alloc, bytes)?;
    let line = LogLine::Order {
        number,
        checkable,
        missing: true,
    };
    end(line, rest)
}

fn read_started(
    alloc: Global,
    style: Style,
    number: u64,
    checkable: u32,
    bytes: &[u8],
) -> Result<LogLine, EntryError>
    ensures { Gives (λ x. x) result (started_at style number checkable bytes.now) }
{
    let line = LogLine::Order {
        number,
        checkable,
        missing: false,
    };
    match style {
        Style::One => end(line, bytes),
        Style::Two => {
            let rest = behind(bytes, " ")?;
            let rest = read_words(alloc, rest)?;
            end(line, rest)
        }
    }
}

/// What follows the words of a command, of which there may be none.
fn read_words<'a>(alloc: Global, bytes: &'a [u8]) -> Result<&'a [u8], EntryError>
    ensures { Gives (λ x. x.now) result (words_at bytes.now) }
{
    match bytes.strip_prefix(b"\n") {
        Some(_) => Ok(bytes),
        None => read_each_word(alloc, bytes),
    }
}

/// What follows words that are joined by blanks, of which each takes a byte at least.
fn read_each_word<'a>(alloc: Global, bytes: &'a [u8]) -> Result<&'a [u8], EntryError>
    ensures { Gives (λ x. x.now) result (words_within (length bytes.now) bytes.now) }
{
    let mut rest = bytes;
    for _ in 0..bytes.len() {
        let (_, after) = read_text(alloc, rest)?;
        match strip(after, " ") {
            Some(next) => rest = next,
            None => return Ok(after),
        }
    }
    Err(EntryError::BadLine)
}

/// The entry that a line is of.
fn read_entry_line(
    alloc: Global,
    style: Style,
    names: &SiteNames,
    bytes: &[u8],
) -> Result<LogLine, EntryError>
    ensures { Gives (λ x. x) result (entry_line_read style (names_view names.now) bytes.now) }
{
    let Ok(line) = str::from_utf8(bytes) else {
        return Err(EntryError::BadLine);
    };
    let (checkable, entry) = read_styled(alloc, style, names, line)?;
    Ok(LogLine::Entry { checkable, entry })
}

/// The checkable and the entry of a line in a version.
fn read_styled(
    alloc: Global,
    style: Style,
    names: &SiteNames,
    line: &str,
) -> Result<(u32, Entry), EntryError>
    ensures { Gives (λ x. (x.0, x.1)) result (styled_read style (names_view names.now) line.now) }
{
    match style {
        Style::One => read_entry(alloc, line, names),
        Style::Two => read_entry_two(alloc, line, names),
    }
}

/// What a line tells that ends there.
fn end(line: LogLine, rest: &[u8]) -> Result<LogLine, EntryError>
    ensures { Gives (λ x. x) result (ended (line, rest.now)) }
{
    if rest != b"\n".as_slice() {
        return Err(EntryError::BadLine);
    }
    Ok(line)
}
