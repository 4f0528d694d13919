// Which checkables are asked for.
ghost use Rattle.std.specs.Prelude.{◌≡◌};
ghost use Rattle.std.specs.List.{list_all};
ghost use Rattle.site_query.specs.Answers.{compared as compared_to, is_asked as asked, is_kind, meets as meets_filter, stands as stands_to};
ghost use Rattle.site_query.specs.Shown.{cell_view, shown_view};

use crate::cell::Cell;
use crate::shown::Shown;
use crate::{Filter, FilterValue, Op, Query};
use std::cmp::Ordering;

/// Whether a checkable is of the kind that is asked for and meets every filter.
pub(crate) fn is_asked(query: &Query, shown: &Shown<'_>) -> bool
    ensures { result ≡ asked query.now (shown_view shown.now) }
{
    is_of_kind(query, shown) && meets_all(shown, query.filters.as_slice())
}

fn is_of_kind(query: &Query, shown: &Shown<'_>) -> bool
    ensures { result ≡ is_kind query.now.hosts (shown_view shown.now) }
{
    if query.hosts { shown.host } else { !shown.host }
}

fn meets_all(shown: &Shown<'_>, filters: &[Filter]) -> bool
    ensures { result ≡ list_all (meets_filter (shown_view shown.now)) filters.now }
{
    filters.iter().all(|filter| meets(shown, filter))
}

/// Whether what is shown stands to the filter's value as the filter asks.
fn meets(shown: &Shown<'_>, filter: &Filter) -> bool
    ensures { result ≡ meets_filter (shown_view shown.now) filter.now }
{
    match compared(shown.cell(filter.column), &filter.value) {
        Some(order) => stands(filter.op, order),
        None => false,
    }
}

/// Texts by their bytes, and numbers as numbers; `None` for a text and a number.
fn compared(cell: Cell<'_>, value: &FilterValue) -> Option<Ordering>
    ensures { result ≡ compared_to (cell_view cell.entry) value.now }
{
    match cell {
        Cell::Words(text) => match value {
            FilterValue::Words(other) => Some(text.cmp(other.as_str())),
            FilterValue::Count(_) => None,
        },
        Cell::Count(number) => match value {
            FilterValue::Words(_) => None,
            FilterValue::Count(other) => Some(number.cmp(other)),
        },
    }
}

fn stands(op: Op, order: Ordering) -> bool
    ensures { result ≡ stands_to op order }
{
    match op {
        Op::Equal => order.is_eq(),
        Op::Unequal => order.is_ne(),
        Op::Less => order.is_lt(),
        Op::Greater => order.is_gt(),
        Op::AtMost => order.is_le(),
        Op::AtLeast => order.is_ge(),
    }
}
