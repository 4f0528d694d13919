// What a block of a log tells.
ghost use Rattle.std.specs.Prelude.{◌≡◌, ◌<◌, length};
ghost use Rattle.log_text.specs.Fronts.{Gives};
ghost use Rattle.log_text.specs.SiteNames.{names_view};
ghost use Rattle.site_audit.specs.BlockReading.{block_at, block_read, line_added, line_begun, lines_into, with_log_line};
ghost use Rattle.site_audit.specs.Blocks.{lines_of};

use crate::blocks::cut_line;
use crate::lines::read_line;
use crate::log_line::LogLine;
use event_text::LineFault;
use log_text::{EntryError, SiteNames};
use run_text::Style;
use site_base::{Moment, Row};
use site_model::{Entry, Names};
use std::alloc::Global;

/// A command line that was refused, by its number in the turn.
#[derive(Clone, Copy)]
pub(crate) struct RefusedLine {
    pub(crate) number: u64,
    pub(crate) fault: LineFault,
}

/// An entry of a checkable.
#[derive(Drop)]
pub(crate) struct EntryLine {
    pub(crate) checkable: u32,
    pub(crate) entry: Entry,
}

/// A check that was ordered, which isn't started if a macro is missing.
#[derive(Clone, Copy)]
pub(crate) struct OrderLine {
    pub(crate) number: u64,
    pub(crate) checkable: u32,
    pub(crate) missing: bool,
}

/// A block of a log: the moment of its turn, what was refused, the entries, and the orders.
#[derive(Drop)]
pub(crate) struct Block {
    pub(crate) moment: Moment,
    pub(crate) lines: Row<RefusedLine>,
    /// The orders whose reports were refused.
    pub(crate) reports: Row<u64>,
    pub(crate) entries: Row<EntryLine>,
    pub(crate) orders: Row<OrderLine>,
}

/// What the lines of a block tell.
///
/// # Errors
///
/// `BadLine` if one of them is no line of a log of this version, and `OutOfMemory` if there is too little memory for what they tell.
pub(crate) fn read_block(
    alloc: Global,
    style: Style,
    names: &SiteNames,
    checkables: &Names,
    bytes: &[u8],
) -> Result<Block, EntryError>
    requires names { checkables.now ≡ (names_view names.now).checkables }
    requires some { 0 < length bytes.now }
    ensures { Gives (λ x. x) result (block_read style (names_view names.now) (lines_of bytes.now)) }
{
    let (first, rest) = cut_line(bytes);
    let block = first_line(alloc, style, names, checkables, first)?;
    read_lines(alloc, style, names, checkables, rest, block)
}

/// The block that a line begins.
fn first_line(
    alloc: Global,
    style: Style,
    names: &SiteNames,
    checkables: &Names,
    line: &[u8],
) -> Result<Block, EntryError>
    requires { checkables.now ≡ (names_view names.now).checkables }
    ensures { Gives (λ x. x) result (line_begun style (names_view names.now) line.now) }
{
    begin(alloc, read_line(alloc, style, names, checkables, line)?)
}

/// The block that the line of a turn begins.
fn begin(alloc: Global, line: LogLine) -> Result<Block, EntryError>
    ensures { Gives (λ x. x) result (block_at line) }
{
    match line {
        LogLine::Turn { moment, .. } => Ok(Block {
            moment,
            lines: Row::new(alloc),
            reports: Row::new(alloc),
            entries: Row::new(alloc),
            orders: Row::new(alloc),
        }),
        _ => Err(EntryError::BadLine),
    }
}

/// A block with what its other lines tell.
fn read_lines(
    alloc: Global,
    style: Style,
    names: &SiteNames,
    checkables: &Names,
    bytes: &[u8],
    begun: Block,
) -> Result<Block, EntryError>
    requires { checkables.now ≡ (names_view names.now).checkables }
    ensures { Gives (λ x. x) result (lines_into style (names_view names.now) (lines_of bytes.now) begun) }
{
    let mut block = begun;
    let mut rest = bytes;
    while !rest.is_empty() {
        let (line, behind) = cut_line(rest);
        let next = one_line(alloc, style, names, checkables, line, block)?;
        block = next;
        rest = behind;
    }
    Ok(block)
}

/// A block with what this line tells.
fn one_line(
    alloc: Global,
    style: Style,
    names: &SiteNames,
    checkables: &Names,
    line: &[u8],
    block: Block,
) -> Result<Block, EntryError>
    requires { checkables.now ≡ (names_view names.now).checkables }
    ensures { Gives (λ x. x) result (line_added style (names_view names.now) block line.now) }
{
    with_line(block, read_line(alloc, style, names, checkables, line)?)
}

/// A block with what one line more tells, which begins none.
fn with_line(block: Block, line: LogLine) -> Result<Block, EntryError>
    ensures { Gives (λ x. x) result (with_log_line block line) }
{
    let mut block = block;
    match line {
        LogLine::Turn { .. } => return Err(EntryError::BadLine),
        LogLine::RefusedLine { number, fault } => block.lines.push(RefusedLine { number, fault })?,
        LogLine::RefusedReport { order } => block.reports.push(order)?,
        LogLine::Entry { checkable, entry } => block.entries.push(EntryLine { checkable, entry })?,
        LogLine::Order {
            number,
            checkable,
            missing,
        } => {
            let order = OrderLine {
                number,
                checkable,
                missing,
            };
            block.orders.push(order)?;
        }
    }
    Ok(block)
}
