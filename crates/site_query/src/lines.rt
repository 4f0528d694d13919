// Reading lines of queries.
ghost use Rattle.std.specs.Prelude.{◌≡◌, IfOk};
ghost use Rattle.site_query.specs.Reading.{columns_in, filter_in, kind_read, limit_in, line_read, line_with, value_read, words_of};

use crate::column::column_named;
use crate::cutting::cut_word;
use crate::numbers::read_number;
use crate::op::op_named;
use crate::query_line::QueryLine;
use crate::{Column, Filter, FilterValue};
use site_base::{OutOfMemory, Row, Text};
use std::alloc::Global;

/// The greatest number of 19 digits.
const MOST_NUMBER: u64 = 9_999_999_999_999_999_999;

/// How great a limit is at most.
const MOST_LIMIT: u64 = 1_000_000_000;

/// Whether hosts are asked for, by the first line; else services are.
pub(crate) fn kind_of(line: &str) -> Option<bool>
    ensures { result ≡ kind_read line.now }
{
    if line == "GET hosts" {
        Some(true)
    } else if line == "GET services" {
        Some(false)
    } else {
        None
    }
}

/// A line behind the first, without its newline.
pub(crate) fn read_line(alloc: Global, line: &str) -> Result<Option<QueryLine>, OutOfMemory>
    ensures { IfOk result (λ l. l ≡ line_read line.now) }
{
    match cut_word(line) {
        Some((word, rest)) => read_behind(alloc, word, rest),
        None => Ok(None),
    }
}

/// The line that begins with this word and a blank.
fn read_behind(alloc: Global, word: &str, rest: &str) -> Result<Option<QueryLine>, OutOfMemory>
    ensures { IfOk result (λ l. l ≡ line_with word.now (words_of rest.now)) }
{
    if word == "Columns:" {
        return Ok(read_columns(alloc, rest)?.map(QueryLine::Columns));
    }
    if word == "Filter:" {
        return Ok(read_filter(alloc, rest)?.map(QueryLine::Filter));
    }
    if word == "Limit:" {
        return Ok(read_limit(rest).map(QueryLine::Limit));
    }
    Ok(None)
}

/// The columns of these names, between which one blank stands.
fn read_columns(alloc: Global, names: &str) -> Result<Option<Row<Column>>, OutOfMemory>
    ensures { IfOk result (λ cs. cs ≡ columns_in (words_of names.now)) }
{
    let mut columns = Row::new(alloc);
    let mut rest = names;
    while let Some((name, behind)) = cut_word(rest) {
        let Some(column) = column_named(name) else {
            return Ok(None);
        };
        columns.push(column)?;
        rest = behind;
    }
    let Some(column) = column_named(rest) else {
        return Ok(None);
    };
    columns.push(column)?;
    Ok(Some(columns))
}

/// The filter that a column, an operator and a value make, between which one blank stands; the value is the rest.
fn read_filter(alloc: Global, text: &str) -> Result<Option<Filter>, OutOfMemory>
    ensures { IfOk result (λ f. f ≡ filter_in (words_of text.now)) }
{
    let Some((name, rest)) = cut_word(text) else {
        return Ok(None);
    };
    let Some((spelling, value)) = cut_word(rest) else {
        return Ok(None);
    };
    let Some(column) = column_named(name) else {
        return Ok(None);
    };
    let Some(op) = op_named(spelling) else {
        return Ok(None);
    };
    match read_value(alloc, column, value)? {
        Some(value) => Ok(Some(Filter { column, op, value })),
        None => Ok(None),
    }
}

/// How many are told at most.
fn read_limit(text: &str) -> Option<u64>
    ensures { result ≡ limit_in (words_of text.now) }
{
    read_number(text, MOST_LIMIT)
}

/// The value of a filter on a column: a text of the name, and a number of each other column.
fn read_value(alloc: Global, column: Column, text: &str) -> Result<Option<FilterValue>, OutOfMemory>
    ensures { IfOk result (λ v. v ≡ value_read column text.now) }
{
    match column {
        Column::Name => Ok(Some(FilterValue::Words(Text::copy_of(alloc, text)?))),
        _ => Ok(read_number(text, MOST_NUMBER).map(FilterValue::Count)),
    }
}
