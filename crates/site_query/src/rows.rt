// The lines of an answer.
ghost use Rattle.std.specs.Prelude.{◌≡◌, ◌++◌, OnOk, map};
ghost use Rattle.std.specs.List.{join_with_byte};
ghost use Rattle.site_query.specs.Answers.{cell_text, columns_told as told_columns, row_text, value_text};
ghost use Rattle.site_query.specs.Shown.{cell_view, shown_view};

use crate::cell::Cell;
use crate::shown::Shown;
use crate::{Column, Query};
use site_base::OutOfMemory;
use site_text::Line;

/// What is told where a query names no columns.
static NAME_AND_STATE: [Column; 2] = [Column::Name, Column::State];

/// The columns that a query is told.
pub(crate) fn columns_told(query: &Query) -> &[Column]
    ensures { result.now ≡ told_columns query.now.columns }
{
    if query.columns.is_empty() {
        &NAME_AND_STATE
    } else {
        query.columns.as_slice()
    }
}

/// Adds the line of a checkable.
pub(crate) fn push_row(
    out: &mut Line,
    columns: &[Column],
    shown: &Shown<'_>,
) -> Result<(), OutOfMemory>
    ensures { OnOk result (out.new ≡ out.old ++ row_text columns.now (shown_view shown.now)) }
{
    push_cells(out, columns, shown)?;
    out.push('\n')
}

/// Adds what stands in these columns, with a semicolon between two.
fn push_cells(out: &mut Line, columns: &[Column], shown: &Shown<'_>) -> Result<(), OutOfMemory>
    ensures { OnOk result (out.new ≡ out.old ++ join_with_byte 59 (map (cell_text (shown_view shown.now)) columns.now)) }
{
    for i in 0..columns.len() {
        if i > 0 {
            out.push(';')?;
        }
        push_cell(out, shown.cell(columns[i]))?;
    }
    Ok(())
}

/// Adds a text between quotes, and a number in decimal digits.
fn push_cell(out: &mut Line, cell: Cell<'_>) -> Result<(), OutOfMemory>
    ensures { OnOk result (out.new ≡ out.old ++ value_text (cell_view cell.entry)) }
{
    match cell {
        Cell::Words(text) => out.push_quoted(text),
        Cell::Count(number) => out.push_decimal(number),
    }
}
