// Which lists of entries a checkable of a site may have.
ghost use Rattle.std.specs.Prelude.{◌≡◌, ◌<◌, ◌^◌, ◌+◌, ◌-◌, ◌==◌, ◌&&◌, nat_le, nat_lt};
ghost use Rattle.std.specs.Bool.{Decides};
ghost use Rattle.std.specs.List.{list_all};
ghost use Rattle.site_model.specs.PlainSite.{site_view};
ghost use Rattle.checkable_core.specs.Histories.{IsEntryOf, IsHistory};
ghost use Rattle.checkable_core.specs.HistoryTests.{decides_own, is_duration, is_entry_of, is_lawful, names_own};

use site_base::Moment;
use site_model::{Decision, Entry, Event, Outcome, Sight, Site};

/// Whether a checkable of the site may have these entries, the oldest first: they are numbered from 1, moments don't fall, and each
/// may be one of the site.
pub fn is_history(site: &Site, entries: &[Entry]) -> bool
    ensures { Decides result (IsHistory (site_view site.now) entries.now) }
{
    let mut last = Moment::of(0).unwrap();
    for (index, entry) in entries.iter().enumerate() {
        if !is_next(site, entry, index, last) {
            return false;
        }
        last = entry.moment;
    }
    true
}

/// Whether an entry of the site may come after so many, of which the last has this moment.
fn is_next(site: &Site, entry: &Entry, index: usize, last: Moment) -> bool
    requires { index < 2 ^ 64 - 1 }
    ensures { result ≡ ((entry.now.number == index + 1) && (nat_le last entry.now.moment && is_entry_of (site_view site.now) entry.now)) }
{
    entry.number == index as u64 + 1 && last <= entry.moment && names_site(site, entry)
}

/// Whether an entry may be one of a checkable of the site: its event is lawful, and what it names is the site's.
pub fn is_entry_of(site: &Site, entry: &Entry) -> bool
    ensures { Decides result (IsEntryOf (site_view site.now) entry.now) }
{
    names_site(site, entry)
}

fn names_site(site: &Site, entry: &Entry) -> bool
    ensures { result ≡ is_entry_of (site_view site.now) entry.now }
{
    is_lawful(&entry.event)
        && are_seen(site.checkables.len(), entry.sights.as_slice())
        && decide_own(site, entry.decisions.as_slice())
}

/// Whether a result's status is one of the four, and a downtime ends after its start.
fn is_lawful(event: &Event) -> bool
    ensures { result ≡ is_lawful event.now }
{
    match event {
        Event::Result { status, .. } => *status <= 3,
        Event::Down {
            start,
            end,
            fixed,
            duration,
        } => *start < *end && is_duration(*fixed, *duration),
        _ => true,
    }
}

/// Whether a downtime has a duration exactly if it isn't fixed.
fn is_duration(fixed: bool, duration: u64) -> bool
    ensures { result ≡ is_duration fixed duration }
{
    if fixed { duration == 0 } else { duration > 0 }
}

/// Whether all are sights of so many checkables.
fn are_seen(count: usize, sights: &[Sight]) -> bool
    ensures { result ≡ list_all (λ sight. nat_lt sight.checkable count) sights.now }
{
    sights
        .iter()
        .all(|sight| (sight.checkable as usize) < count)
}

/// Whether all name what is the site's.
fn decide_own(site: &Site, decisions: &[Decision]) -> bool
    ensures { result ≡ list_all (decides_own (site_view site.now)) decisions.now }
{
    decisions.iter().all(|decision| decides_own(site, decision))
}

fn decides_own(site: &Site, decision: &Decision) -> bool
    ensures { result ≡ decides_own (site_view site.now) decision.now }
{
    (decision.notification as usize) < site.notifies.len() && names_own(site, &decision.outcome)
}

/// Whether what an outcome names is the site's.
fn names_own(site: &Site, outcome: &Outcome) -> bool
    ensures { result ≡ names_own (site_view site.now) outcome.now }
{
    match outcome {
        Outcome::Sent { users } => are_below(users.as_slice(), site.users.len()),
        Outcome::Dependency { depend } => (*depend as usize) < site.depends.len(),
        Outcome::Host { checkable } => (*checkable as usize) < site.checkables.len(),
        _ => true,
    }
}

fn are_below(indices: &[u32], count: usize) -> bool
    ensures { result ≡ list_all (λ k. nat_lt k count) indices.now }
{
    indices.iter().all(|index| (*index as usize) < count)
}
