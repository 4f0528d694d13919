// What comes first of some downtimes.
ghost use Rattle.std.specs.Prelude.{◌≡◌, ◌∷◌, List, [], Some, if◌then◌else◌};
ghost use Rattle.downtime_book.specs.declared.downtime.Downtime.{Downtime};
ghost use Rattle.downtime_book.specs.Firsts.{first_of, firsts_of, starts};
ghost use Rattle.downtime_book.specs.Naming.{lesser, rank_of};

use crate::downtime::Downtime;
use crate::rank::{Rank, lesser, started};
use site_base::Moment;

/// The least ranks of some downtimes that aren't past.
#[derive(Clone, Copy)]
pub struct Firsts {
    /// Of those that are in effect from their start on.
    pub settled: Option<Rank>,
    /// Of those and of those that a problem puts into effect.
    pub in_problem: Option<Rank>,
    /// Of those that wait for a problem.
    pub waiting: Option<Rank>,
}

impl Firsts {
    /// The firsts of no downtimes.
    pub fn none() -> Firsts
        ensures { result ≡ firsts_of [] }
    {
        Firsts {
            settled: None,
            in_problem: None,
            waiting: None,
        }
    }

    /// With one downtime more.
    pub fn with(&self, downtime: &Downtime) -> Firsts
        ensures { (ds : List Downtime) → self.now ≡ firsts_of ds → result ≡ firsts_of (downtime.now ∷ ds) }
    {
        Firsts {
            settled: with_if(downtime.counts(false), downtime, &self.settled),
            in_problem: with_if(downtime.counts(true), downtime, &self.in_problem),
            waiting: with_if(downtime.is_waiting(), downtime, &self.waiting),
        }
    }

    /// The first that is in effect at this moment, once a result came at it.
    pub fn in_effect(&self, moment: Moment, problem: bool) -> Option<Rank>
        ensures { (ds : List Downtime) → self.now ≡ firsts_of ds → result ≡ first_of (starts moment problem) ds }
    {
        if problem {
            started(&self.in_problem, moment)
        } else {
            started(&self.settled, moment)
        }
    }
}

// The least rank with one downtime more, if that counts.
fn with_if(counts: bool, downtime: &Downtime, others: &Option<Rank>) -> Option<Rank>
    ensures { result ≡ (if counts then Some (lesser (rank_of downtime.now) others.now) else others.now) }
{
    if counts {
        Some(lesser(downtime.rank(), others))
    } else {
        *others
    }
}
