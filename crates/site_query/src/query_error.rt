// Why a text is no query.
use site_base::OutOfMemory;
use thiserror::Error;

/// Why [`read_query`](crate::read_query) gives no query.
#[derive(Clone, Copy, Debug, Error)]
pub enum QueryError {
    /// The first line, counted from 1, that is no line of a query in its place, also where it is missing; the greatest number
    /// stands for all lines from it on. It is 1 where the bytes aren't UTF-8.
    #[error("line {line} of the query is none")]
    BadQuery { line: u32 },
    #[error("out of memory")]
    OutOfMemory,
}

impl From<OutOfMemory> for QueryError {
    ghost use Rattle.std.specs.Prelude.{◌≡◌};
    ghost use Rattle.site_query.specs.declared.query_error.QueryError.TheVariants.{OutOfMemory as NoMemory};

    ghost from_gives = { λ _ e. e ≡ NoMemory };

    fn from(_: OutOfMemory) -> QueryError {
        QueryError::OutOfMemory
    }
}
