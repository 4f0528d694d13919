// Moments in UTC.
ghost use Rattle.std.specs.Prelude.{◌≡◌, ◌+◌, ◌≤◌, ◌↔◌, min, IsSome, IfSome};

use std::marker::Model;

/// Whole seconds from 1970-01-01 in UTC, from 0 to 99,999,999,999. Clauses see it as that number.
#[derive(Clone, Copy, PartialEq, Eq, PartialOrd, Ord)]
pub struct Moment {
    secs: u64,
}

impl Model for Moment {
    ghost use Rattle.std.specs.Prelude.{ℕ, ◌≤◌};

    ghost Value = { ℕ };

    ghost view = { λ m. m.secs };

    ghost invariant = { λ m. m.secs ≤ 99999999999 };

    ghost inverse = { λ n. record { secs = n } };
}

impl Moment {
    /// The greatest moment, in seconds from 1970.
    pub const LAST: u64 = 99_999_999_999;

    /// The moment so many seconds after 1970; `None` above the greatest moment.
    pub fn of(secs: u64) -> Option<Moment>
        ensures valid { IsSome result ↔ (secs ≤ Moment.LAST) }
        ensures value { IfSome result (λ m. m ≡ secs) }
    {
        if secs <= Moment::LAST {
            Some(Moment { secs })
        } else {
            None
        }
    }

    /// Seconds from 1970.
    pub fn secs(&self) -> u64
        ensures value { result ≡ self.now }
        ensures within { result ≤ Moment.LAST }
    {
        self.secs
    }

    /// The moment so many seconds later, or the greatest moment where that would be past it.
    pub fn later(&self, secs: u64) -> Moment
        ensures { result ≡ min (self.now + secs) Moment.LAST }
    {
        Moment {
            secs: self.secs.saturating_add(secs).min(Moment::LAST),
        }
    }
}
