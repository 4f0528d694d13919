// When one checkable is to be checked next.
ghost use Rattle.std.specs.Prelude.{◌≡◌};
ghost use Rattle.site_model.specs.PlainSite.{check_view};
ghost use Rattle.site_model.specs.declared.view.View.{View};
ghost use Rattle.run_meaning.specs.Schedule.{again_at as due_again, watch_with};
ghost use Rattle.check_slots.specs.Watches.{first_watch, watch_as};

use check_state::is_problem;
use site_base::Moment;
use site_model::{CheckSpec, Entry, Event};

/// When a checkable is to be checked next.
#[derive(Clone, Copy, PartialEq, Eq)]
pub struct Watch {
    pub next: Moment,
    /// Whether it is checked then whatever holds checks back.
    pub forced: bool,
    /// Whether an order of it is outstanding, so that it gets no other.
    pub waiting: bool,
}

impl Watch {
    /// Before the first check: it is due at once.
    pub fn first() -> Watch
        ensures { watch_as result ≡ first_watch }
    {
        Watch {
            next: Moment::of(0).unwrap(),
            forced: false,
            waiting: false,
        }
    }

    /// After an entry of the checkable. A result of an order sets the next moment and ends the waiting; a passive one and a
    /// Check set it where no order is outstanding.
    pub fn after(self, spec: &CheckSpec, entry: &Entry) -> Watch
        ensures { (v : View) → v.state ≡ entry.now.state → v.hard ≡ entry.now.hard →
            watch_as result ≡ watch_with (check_view spec.now) v entry.now.moment entry.now.event (watch_as self) }
    {
        match &entry.event {
            Event::Result { passive, .. } if *passive && self.waiting => self,
            Event::Result { .. } => Watch {
                next: again_at(spec, entry),
                forced: self.forced,
                waiting: false,
            },
            Event::Check { .. } if self.waiting => self,
            Event::Check { moment, forced } => Watch {
                next: *moment,
                forced: self.forced || *forced,
                waiting: false,
            },
            _ => self,
        }
    }
}

/// When a checkable that an entry leaves so is to be checked again: a SOFT problem sooner.
fn again_at(spec: &CheckSpec, entry: &Entry) -> Moment
    ensures { (v : View) → v.state ≡ entry.now.state → v.hard ≡ entry.now.hard → result ≡ due_again (check_view spec.now) v entry.now.moment }
{
    let secs = if is_problem(entry.state) && !entry.hard {
        spec.retry_secs
    } else {
        spec.check_secs
    };
    entry.moment.later(secs)
}
