// What is decided on the notifications of a checkable at an entry.
ghost use Rattle.std.specs.Prelude.{◌≡◌, ◌<◌, ◌++◌, ◌∷◌, [], ℕ, List, Option, Some, true, All, IfOk, OnOk, length, map, reverse, slice_get};
ghost use Rattle.jiff_tz.specs.declared.tzif.Tzif.{Tzif};
ghost use Rattle.site_model.specs.PlainSite.{PlainCheck, PlainSite, site_view};
ghost use Rattle.site_model.specs.declared.entry.Entry.{Entry};
ghost use Rattle.run_meaning.specs.Acts.{Seen};
ghost use Rattle.run_meaning.specs.Decisions.{Case, decisions_of};
ghost use Rattle.run_meaning.specs.View.{view_of};
ghost use Rattle.notify_rules.specs.Case.{Asks, IsCase, decided_for, decided_on, decided_where, gives_kinds, has_any};
ghost use Rattle.depend_graph.specs.Outlooks.{holds_in};
ghost use Rattle.notify_rules.specs.Sent.{HasUsers, NeverFall, Remembers, StandsFor, number_of, user_of};

use crate::SentBook;
use crate::asked::{Asked, is_fresh};
use crate::kinds::{gives_kinds, kinds_of};
use crate::outcomes::outcome_of;
use crate::sent_note::SentNote;
use depend_graph::Reach;
use site_base::{Moment, OutOfMemory, Row};
use site_model::{Decision, Event, NoteKind, NotifySpec, Site, View};
use std::alloc::Global;
use time_range::Zone;

/// What is decided on the notifications of a checkable at an entry: on each of them in their order, and for each kind that
/// the entry gives, whether it is sent and to whom, or the first cause that holds it back (Icinga 2 documentation,
/// Monitoring Basics, "Notifications").
///
/// `before` and `after` are what the checkable shows without the entry and with it, `sent` is the book of the entries
/// before it, `downtime` the downtime in effect with it, and `reach` the answer on reachability for notifications.
///
/// # Errors
///
/// `OutOfMemory` if there is none for the decisions.
pub fn decide(
    alloc: Global,
    site: &Site,
    checkable: u32,
    before: &View,
    after: &View,
    event: &Event,
    taken: bool,
    sent: &SentBook,
    downtime: Option<u64>,
    reach: Reach,
    moment: Moment,
    zone: &Zone,
) -> Result<Row<Decision>, OutOfMemory>
    requires { checkable < length site.now.checkables }
    ensures { (check : PlainCheck) (h : List Entry) (e : Entry) (seen : List Seen) → slice_get (site_view site.now).checkables checkable ≡ Some check →
        StandsFor sent.now (site_view site.now) checkable check h →
        Asks (site_view site.now) zone.now checkable check h e seen before.now after.now event.now taken downtime reach moment →
        IfOk result (λ ds. ds ≡ decisions_of (site_view site.now) (holds_in (site_view site.now) zone.now) checkable check h e seen) }
{
    let kinds = kinds_of(alloc, before, after, event, taken)?;
    if kinds.is_empty() {
        return Ok(Row::new(alloc));
    }
    let volatile = site.checkables.as_slice()[checkable as usize].volatile;
    let asked = Asked {
        after: *after,
        fresh: is_fresh(volatile, before, after, event),
        reach,
        downtime,
        moment,
    };
    decide_all(alloc, site, zone, &asked, sent.notes(), kinds.as_slice())
}

/// Whether anything is decided at an entry. What holds notifications back needs to be known only then. The book and the views
/// are those that `decide` takes.
pub fn decides(sent: &SentBook, before: &View, after: &View, event: &Event, taken: bool) -> bool
    ensures any { (s : PlainSite) (zone : Option Tzif) (c : ℕ) (check : PlainCheck) (h : List Entry) (e : Entry) (seen : List Seen) → StandsFor sent.now s c check h →
        before.now ≡ view_of check h → after.now ≡ view_of check (h ++ e ∷ []) → e.event ≡ event.now → e.taken ≡ taken →
        result ≡ has_any (decisions_of s (holds_in s zone) c check h e seen) }
    ensures gives { result ≡ true → gives_kinds before.now after.now event.now taken ≡ true }
{
    if sent.is_empty() {
        return false;
    }
    gives_kinds(before, after, event, taken)
}

/// What is decided on these notifications for these kinds.
fn decide_all(
    alloc: Global,
    site: &Site,
    zone: &Zone,
    asked: &Asked,
    notes: &[SentNote],
    kinds: &[NoteKind],
) -> Result<Row<Decision>, OutOfMemory>
    ensures { (x : Case) → IsCase asked.now x → NeverFall (reverse x.history) → All (Remembers x.check (reverse x.history)) notes.now → All (HasUsers site.now.notifies) notes.now →
        IfOk result (λ ds. ds ≡ decided_on (site_view site.now) (holds_in (site_view site.now) zone.now) x kinds.now (map number_of notes.now)) }
{
    let mut decisions = Row::new(alloc);
    for sent in notes {
        decide_note(alloc, site, zone, asked, sent, kinds, &mut decisions)?;
    }
    Ok(decisions)
}

/// Adds what is decided on a notification for these kinds.
fn decide_note(
    alloc: Global,
    site: &Site,
    zone: &Zone,
    asked: &Asked,
    sent: &SentNote,
    kinds: &[NoteKind],
    decisions: &mut Row<Decision>,
) -> Result<(), OutOfMemory>
    ensures { (x : Case) → IsCase asked.now x → NeverFall (reverse x.history) → Remembers x.check (reverse x.history) sent.now → HasUsers site.now.notifies sent.now →
        OnOk result (decisions.new ≡ decisions.old ++ decided_where (site_view site.now) (holds_in (site_view site.now) zone.now) x kinds.now sent.now.notification (slice_get site.now.notifies sent.now.notification)) }
{
    match site.notifies.as_slice().get(sent.notification as usize) {
        None => Ok(()),
        Some(note) => decide_kinds(alloc, site, zone, asked, sent, note, kinds, decisions),
    }
}

/// The same, with what the site sets of it.
fn decide_kinds(
    alloc: Global,
    site: &Site,
    zone: &Zone,
    asked: &Asked,
    sent: &SentNote,
    note: &NotifySpec,
    kinds: &[NoteKind],
    decisions: &mut Row<Decision>,
) -> Result<(), OutOfMemory>
    ensures { (x : Case) → IsCase asked.now x → NeverFall (reverse x.history) → Remembers x.check (reverse x.history) sent.now → map user_of sent.now.listeners ≡ note.now.users →
        OnOk result (decisions.new ≡ decisions.old ++ decided_for (site_view site.now) (holds_in (site_view site.now) zone.now) x kinds.now sent.now.notification note.now) }
{
    for kind in kinds {
        let outcome = outcome_of(alloc, site, zone, asked, sent, note, *kind)?;
        decisions.push(Decision {
            notification: sent.notification,
            kind: *kind,
            outcome,
        })?;
    }
    Ok(())
}
