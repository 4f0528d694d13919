// Lines of queries.
use crate::{Column, Filter};
use site_base::Row;

/// A line of a query behind the first.
#[derive(Drop)]
pub(crate) enum QueryLine {
    /// What is told of each checkable.
    Columns(Row<Column>),
    /// What each has to meet.
    Filter(Filter),
    /// How many are told at most.
    Limit(u64),
}
