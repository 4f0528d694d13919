// Queries.
ghost use Rattle.std.specs.Prelude.{◌≡◌};
ghost use Rattle.site_query.specs.Lines.{all_of};

use crate::{Column, Filter};
use site_base::Row;
use std::alloc::Global;

/// A query, in the manner of Livestatus: which hosts or services are asked for, and what is told of them.
#[derive(Drop)]
pub struct Query {
    /// Whether hosts are asked for; else services.
    pub hosts: bool,
    /// What is told of each, in this order; name and state if there are none.
    pub columns: Row<Column>,
    /// What each has to meet.
    pub filters: Row<Filter>,
    /// How many are told at most, the first ones that meet every filter; `None` for all.
    pub limit: Option<u64>,
}

impl Query {
    /// All hosts, or all services.
    pub(crate) fn all(alloc: Global, hosts: bool) -> Query
        ensures { result ≡ all_of hosts }
    {
        Query {
            hosts,
            columns: Row::new(alloc),
            filters: Row::new(alloc),
            limit: None,
        }
    }
}
