// Filters.
use crate::{Column, Op};
use site_base::Text;

/// What a checkable has to show so that it is told: a column that stands so to a value.
#[derive(Drop)]
pub struct Filter {
    pub column: Column,
    pub op: Op,
    pub value: FilterValue,
}

/// What a column is compared with.
#[derive(Drop)]
pub enum FilterValue {
    /// A text, compared by its bytes: of the column `name`.
    Words(Text),
    /// A number: of every other column.
    Count(u64),
}
