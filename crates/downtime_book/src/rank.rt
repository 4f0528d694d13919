// What decides between downtimes.
ghost use Rattle.std.specs.Prelude.{◌≡◌};
ghost use Rattle.downtime_book.specs.Naming.{lesser, started};

use site_base::Moment;

/// When a downtime starts, and its number: the least rank is named.
#[derive(Clone, Copy, PartialEq, Eq, PartialOrd, Ord)]
pub struct Rank {
    pub start: Moment,
    pub number: u64,
}

/// The lesser of a rank and of another, if there is one.
pub fn lesser(rank: Rank, other: &Option<Rank>) -> Rank
    ensures { result ≡ lesser rank other.now }
{
    match other {
        Some(other) => rank.min(*other),
        None => rank,
    }
}

/// The rank of a downtime, if it has started at this moment.
pub fn started(rank: &Option<Rank>, moment: Moment) -> Option<Rank>
    ensures { result ≡ started moment rank.now }
{
    match rank {
        Some(rank) if rank.start <= moment => Some(*rank),
        _ => None,
    }
}
