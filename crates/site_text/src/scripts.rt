// Reading scripts.
ghost use Rattle.std.specs.Prelude.{◌≡◌, ◌+◌, Some, None, MatchBool, IfOk, []};
ghost use Rattle.site_text.specs.Scripts.{Answer, Has, empty_turn as turn_without, with_line};
ghost use Rattle.site_text.specs.ScriptReading.{Gives, Tells, script_from};

use crate::ScriptError;
use crate::script_line::ScriptLine;
use crate::script_lines::read_script_line;
use site_base::{Moment, OutOfMemory, Row};
use site_edge::Turn;
use std::alloc::Global;

/// The turns of a script, which is lines that each end in a newline:
///
/// - `turn MOMENT` begins a turn;
/// - `report ORDER STATUS TEXT` is a report of the last turn, with a status from 0 to 255;
/// - `line TEXT` is a command line of the last turn.
///
/// One blank stands between the parts. Numbers are decimal digits without a leading zero, a moment's at
/// most 11 and an order's at most 19. Texts are spelled as [`site_base::quote`] spells them, where bytes
/// above 127 stand as they are, UTF-8 or not. The first line begins a turn, and an empty script has none.
///
/// `BadScript` at the first line that is none, or that has no turn to go to; `OutOfMemory` if there is no
/// memory for the turns. The time is linear in the number of bytes.
pub fn read_script(alloc: Global, bytes: &[u8]) -> Result<Row<Turn>, ScriptError>
    ensures value { Gives result (script_from [] 0 bytes.now) }
    ensures told { Tells (Has bytes.now) result }
    ensures only { (a : Answer) → Has bytes.now a → Gives result a }
{
    read_lines(alloc, bytes)
}

fn read_lines(alloc: Global, bytes: &[u8]) -> Result<Row<Turn>, ScriptError>
    ensures { Gives result (script_from [] 0 bytes.now) }
{
    let mut turns = Vec::new(alloc);
    let mut rest = bytes;
    let mut number: u32 = 0;
    while !rest.is_empty() {
        number = number.saturating_add(1);
        let Some((line, behind)) = read_script_line(alloc, rest)? else {
            return Err(ScriptError::BadScript { line: number });
        };
        if !take_line(alloc, &mut turns, line)? {
            return Err(ScriptError::BadScript { line: number });
        }
        rest = behind;
    }
    Ok(Row::from(turns))
}

/// Begins a turn, or adds to the last one; `false` if there is none.
fn take_line(alloc: Global, turns: &mut Vec<Turn>, line: ScriptLine) -> Result<bool, OutOfMemory>
    ensures { IfOk result (λ taken. MatchBool taken (with_line turns.old.items line ≡ Some turns.new.items) (with_line turns.old.items line ≡ None)) }
{
    match line {
        ScriptLine::Turn(moment) => turns.push(empty_turn(alloc, moment))?,
        ScriptLine::Report(report) => match turns.last_mut() {
            Some(turn) => turn.reports.push(report)?,
            None => return Ok(false),
        },
        ScriptLine::Line(line) => match turns.last_mut() {
            Some(turn) => turn.lines.push(line)?,
            None => return Ok(false),
        },
    }
    Ok(true)
}

/// A turn in which nothing is handed in.
fn empty_turn(alloc: Global, moment: Moment) -> Turn
    ensures { result ≡ turn_without moment }
{
    Turn {
        moment,
        reports: Row::new(alloc),
        lines: Row::new(alloc),
    }
}
