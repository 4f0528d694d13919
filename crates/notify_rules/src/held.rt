// What holds a notification back.
ghost use Rattle.std.specs.Prelude.{◌≡◌, ℕ, ◌&&◌, not, reverse};
ghost use Rattle.site_model.specs.PlainSite.{site_view};
ghost use Rattle.run_meaning.specs.Decisions.{Case, held_so, is_within, sent_since};
ghost use Rattle.run_meaning.specs.View.{is_on};
ghost use Rattle.notify_rules.specs.Case.{IsCase, first_in, common_causes, own_causes, problem_causes, sent_from};
ghost use Rattle.depend_graph.specs.Outlooks.{holds_in};
ghost use Rattle.depend_graph.specs.Reaching.{reach_as};

use crate::asked::Asked;
use crate::filters::{is_for_problem, takes_kind, takes_state, tells_state};
use crate::periods::holds;
use crate::times::{is_early, is_late, is_within};
use depend_graph::Reach;
use site_base::Moment;
use site_model::{Ack, NoteKind, NotifySpec, Outcome, Site};
use time_range::Zone;

/// What holds every notification of an entry back, the first cause of them.
pub(crate) fn common_cause(asked: &Asked, kind: NoteKind) -> Option<Outcome>
    ensures { (x : Case) → IsCase asked.now x → result ≡ first_in (common_causes x kind) }
{
    if !asked.after.notes_on {
        return Some(Outcome::Disabled);
    }
    if let Some(cause) = held_so(asked.reach) {
        return Some(cause);
    }
    if let Some(number) = asked.downtime {
        return Some(Outcome::Downtime { number });
    }
    if tells_state(kind) && asked.after.flapping {
        return Some(Outcome::Flapping);
    }
    if is_for_problem(kind) && is_on(asked.after.ack) {
        return Some(Outcome::Acknowledged);
    }
    None
}

/// What holds one notification back, the first cause of them, if nothing holds all back. The moment is that at which
/// a problem was sent last.
pub(crate) fn own_cause(
    asked: &Asked,
    site: &Site,
    zone: &Zone,
    note: &NotifySpec,
    sent: Option<Moment>,
    kind: NoteKind,
) -> Option<Outcome>
    ensures { (x : Case) (n : ℕ) → IsCase asked.now x → ((from : ℕ) → sent_since n from (reverse x.history) ≡ sent_from from sent) →
        result ≡ first_in (own_causes (holds_in (site_view site.now) zone.now) x n note.now kind) }
{
    if !holds(site, note.period, asked.moment, zone) {
        return Some(Outcome::Period);
    }
    if !takes_kind(&note.kinds, kind) {
        return Some(Outcome::Kind);
    }
    if tells_state(kind) && !takes_state(&note.states, asked.after.state) {
        return Some(Outcome::State);
    }
    problem_cause(asked, note, sent, kind)
}

/// What holds a problem back.
fn problem_cause(
    asked: &Asked,
    note: &NotifySpec,
    sent: Option<Moment>,
    kind: NoteKind,
) -> Option<Outcome>
    ensures { (x : Case) (n : ℕ) → IsCase asked.now x → ((from : ℕ) → sent_since n from (reverse x.history) ≡ sent_from from sent) →
        result ≡ first_in (problem_causes x n note.now kind) }
{
    if !is_for_problem(kind) {
        return None;
    }
    if is_early(asked.moment, asked.after.change, note.begin) {
        return Some(Outcome::TooEarly);
    }
    if is_late(asked.moment, asked.after.change, note.end) {
        return Some(Outcome::TooLate);
    }
    if is_repeat(asked, note.interval, sent) {
        return Some(Outcome::Repeat);
    }
    None
}

/// Whether a problem was told since the change, isn't fresh, and its interval isn't over.
fn is_repeat(asked: &Asked, interval: u64, sent: Option<Moment>) -> bool
    ensures { result ≡ (not asked.now.fresh && is_within asked.now.moment interval (sent_from asked.now.after.change sent)) }
{
    !asked.fresh && is_within(asked.moment, interval, sent_from(asked.after.change, sent))
}

/// The moment at which a problem was sent last, if that is from this one on.
fn sent_from(from: Moment, sent: Option<Moment>) -> Option<Moment>
    ensures { result ≡ sent_from from sent }
{
    match sent {
        Some(sent) if sent >= from => Some(sent),
        _ => None,
    }
}

/// What an answer on reachability holds back.
fn held_so(reach: Reach) -> Option<Outcome>
    ensures { result ≡ held_so (reach_as reach) }
{
    match reach {
        Reach::Reachable => None,
        Reach::Depend { depend } => Some(Outcome::Dependency { depend }),
        Reach::Host { checkable } => Some(Outcome::Host { checkable }),
    }
}

/// Whether an acknowledgement is in force.
fn is_on(ack: Ack) -> bool
    ensures { result ≡ is_on ack }
{
    !matches!(ack, Ack::Off)
}
