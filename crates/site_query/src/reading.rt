// Reading queries.
ghost use Rattle.std.specs.Prelude.{◌≡◌, Some, None, MatchBool, IfOk};
ghost use Rattle.std.specs.List.{AllByRecursion};
ghost use Rattle.site_query.specs.Lines.{Answer, Has, IsApt, with_line};
ghost use Rattle.site_query.specs.Reading.{Gives, Tells, lines_of, lines_read, query_read, text_read, with_text};

use crate::cutting::cut_line;
use crate::lines::{kind_of, read_line};
use crate::query_line::QueryLine;
use crate::{Query, QueryError};
use site_base::OutOfMemory;
use std::alloc::Global;

/// The query that a text tells, which is UTF-8 lines that each end in a newline. The first is `GET hosts` or `GET services`. Behind it
/// stand, in any order,
///
/// - `Columns: NAME NAME ..`, at most once: what is told of each, one or more names of columns with one blank between two; a name may stand twice;
/// - `Filter: COLUMN OP VALUE`: what each has to meet, with one of `=`, `!=`, `<`, `>`, `<=` and `>=`, and with the rest of the line as the value, which is a
///   text of the column `name` and a number of every other one;
/// - `Limit: N`, at most once: how many are told at most, up to 1,000,000,000.
///
/// Numbers are 1 to 19 digits, leading zeros too. The time is linear in the number of bytes.
///
/// # Errors
///
/// `BadQuery` at the first line that is none of these in its place: at line 1 if there is none, and where the bytes aren't UTF-8.
/// `OutOfMemory` if there is none for the query.
pub fn read_query(alloc: Global, bytes: &[u8]) -> Result<Query, QueryError>
    ensures value { Gives result (query_read bytes.now) }
    ensures told { Tells (Has bytes.now) result }
    ensures only { (a : Answer) → Has bytes.now a → Gives result a }
    ensures apt { IfOk result (λ q. AllByRecursion IsApt q.filters) }
{
    read_bytes(alloc, bytes)
}

fn read_bytes(alloc: Global, bytes: &[u8]) -> Result<Query, QueryError>
    ensures { Gives result (query_read bytes.now) }
{
    match str::from_utf8(bytes) {
        Ok(text) => read_text(alloc, text),
        Err(_) => Err(QueryError::BadQuery { line: 1 }),
    }
}

fn read_text(alloc: Global, text: &str) -> Result<Query, QueryError>
    ensures { Gives result (text_read (lines_of text.now)) }
{
    let Some((first, rest)) = cut_line(text) else {
        return Err(QueryError::BadQuery { line: 1 });
    };
    match kind_of(first) {
        Some(hosts) => read_lines(alloc, Query::all(alloc, hosts), rest),
        None => Err(QueryError::BadQuery { line: 1 }),
    }
}

/// The query with what the lines behind the first one ask for.
fn read_lines(alloc: Global, start: Query, text: &str) -> Result<Query, QueryError>
    ensures { Gives result (lines_read start 1 (lines_of text.now)) }
{
    let mut query = start;
    let mut rest = text;
    let mut number: u32 = 1;
    while !rest.is_empty() {
        number = number.saturating_add(1);
        let Some((line, behind)) = cut_line(rest) else {
            return Err(QueryError::BadQuery { line: number });
        };
        if !take_line(alloc, &mut query, line)? {
            return Err(QueryError::BadQuery { line: number });
        }
        rest = behind;
    }
    Ok(query)
}

/// Adds what a line asks for; `false` where it is none, or the query has one that it may have but once.
fn take_line(alloc: Global, query: &mut Query, line: &str) -> Result<bool, OutOfMemory>
    ensures { IfOk result (λ taken. MatchBool taken (with_text query.old line.now ≡ Some query.new) (with_text query.old line.now ≡ None)) }
{
    match read_line(alloc, line)? {
        Some(line) => add_line(query, line),
        None => Ok(false),
    }
}

fn add_line(query: &mut Query, line: QueryLine) -> Result<bool, OutOfMemory>
    ensures { IfOk result (λ taken. MatchBool taken (with_line query.old line ≡ Some query.new) (with_line query.old line ≡ None)) }
{
    match line {
        QueryLine::Columns(columns) => {
            if !query.columns.is_empty() {
                return Ok(false);
            }
            query.columns = columns;
        }
        QueryLine::Filter(filter) => query.filters.push(filter)?,
        QueryLine::Limit(limit) => {
            if query.limit.is_some() {
                return Ok(false);
            }
            query.limit = Some(limit);
        }
    }
    Ok(true)
}
