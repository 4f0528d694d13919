//! Queries: which hosts or services are asked for, and what is told of them.
//!
//! In reading order: the columns that can be asked for (`column`) and how they are compared (`op`), what a query asks for (`filter`, `query`)
//! and why a text is none (`query_error`); how a text is cut (`cutting`), its numbers (`numbers`) and its lines (`query_line`, `lines`), and
//! how a query is read (`reading`); what stands in a column (`cell`, `shown`), which checkables are asked for (`meeting`), the lines of an
//! answer (`rows`) and the answer (`answering`); and a worked query, as a law (`examples`).
#![tactic(auto)]

mod answering;
mod cell;
mod column;
mod cutting;
mod examples;
mod filter;
mod lines;
mod meeting;
mod numbers;
mod op;
mod query;
mod query_error;
mod query_line;
mod reading;
mod rows;
mod shown;

pub use answering::answer;
pub use column::Column;
pub use examples::services_that_are_not_ok;
pub use filter::{Filter, FilterValue};
pub use op::Op;
pub use query::Query;
pub use query_error::QueryError;
pub use reading::read_query;
