// How long after its change a problem is told, and when it is told again.
ghost use Rattle.std.specs.Prelude.{◌≡◌, ◌+◌, ◌||◌, ◌==◌, nat_lt};
ghost use Rattle.run_meaning.specs.Decisions.{is_within};
ghost use Rattle.notify_rules.specs.Times.{early, late};

use site_base::Moment;

/// Whether a moment is before `begin` seconds after the change (Icinga 2 documentation, Object Types, "Notification",
/// `times`).
pub(crate) fn is_early(moment: Moment, change: Moment, begin: Option<u64>) -> bool
    ensures { result ≡ early moment change begin }
{
    match begin {
        None => false,
        Some(begin) => moment.secs() < change.secs().saturating_add(begin),
    }
}

/// Whether a moment is after `end` seconds after the change.
pub(crate) fn is_late(moment: Moment, change: Moment, end: Option<u64>) -> bool
    ensures { result ≡ late moment change «end» }
{
    match end {
        None => false,
        Some(end) => change.secs().saturating_add(end) < moment.secs(),
    }
}

/// Whether the interval since a problem was sent isn't over; an interval of 0 never is.
pub(crate) fn is_within(moment: Moment, interval: u64, sent: Option<Moment>) -> bool
    ensures { result ≡ is_within moment interval sent }
{
    match sent {
        None => false,
        Some(sent) => interval == 0 || moment.secs() < sent.secs().saturating_add(interval),
    }
}
