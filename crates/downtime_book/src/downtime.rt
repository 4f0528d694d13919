// One downtime.
ghost use Rattle.std.specs.Prelude.{◌≡◌, true};

use crate::kind::Kind;
use crate::rank::Rank;
use site_base::Moment;

/// A downtime as a book keeps it: its number, the span that it was given, and how it takes effect.
#[derive(Drop)]
pub struct Downtime {
    pub number: u64,
    pub start: Moment,
    pub end: Moment,
    pub kind: Kind,
}

impl Downtime {
    ghost use Rattle.downtime_book.specs.Downtime.{until, is_live};
    ghost use Rattle.downtime_book.specs.Downtime.{is_triggered_by, after_result};
    ghost use Rattle.downtime_book.specs.Firsts.{counts, is_waiting};
    ghost use Rattle.downtime_book.specs.Naming.{rank_of};

    /// What decides whether it is the one that is named.
    pub fn rank(&self) -> Rank
        ensures { result ≡ rank_of self.now }
    {
        Rank {
            start: self.start,
            number: self.number,
        }
    }

    /// The first second at which it is past, if nothing more happens. It can lie beyond the
    /// greatest moment.
    pub fn until(&self) -> u128
        ensures { result ≡ until self.now }
    {
        match &self.kind {
            Kind::Flexible {
                duration,
                trigger: Some(trigger),
            } => u128::from(trigger.secs()) + u128::from(*duration),
            _ => u128::from(self.end.secs()),
        }
    }

    /// Whether it isn't past.
    pub fn is_live(&self, moment: Moment) -> bool
        ensures { result ≡ is_live moment self.now }
    {
        u128::from(moment.secs()) < self.until()
    }

    /// Whether it is in effect from its start on as long as it is live, once a result came.
    pub fn counts(&self, problem: bool) -> bool
        ensures { result ≡ counts problem self.now }
    {
        match &self.kind {
            Kind::Flexible {
                duration,
                trigger: None,
            } => problem && *duration > 0,
            _ => true,
        }
    }

    /// Whether it waits for a problem.
    pub fn is_waiting(&self) -> bool
        ensures { result ≡ is_waiting self.now }
    {
        matches!(&self.kind, Kind::Flexible { trigger: None, .. })
    }

    /// Whether a problem at this moment triggers it.
    fn is_triggered_by(&self, moment: Moment) -> bool
        ensures { result ≡ is_triggered_by moment self.now }
    {
        match &self.kind {
            Kind::Flexible { trigger: None, .. } => self.start <= moment && moment < self.end,
            _ => false,
        }
    }

    /// Lets a problem trigger it, if it waits for one.
    pub fn meet_problem(&mut self, moment: Moment)
        ensures { self.new ≡ after_result moment true self.old }
    {
        if !self.is_triggered_by(moment) {
            return;
        }
        if let Kind::Flexible { trigger, .. } = &mut self.kind {
            *trigger = Some(moment);
        }
    }
}
