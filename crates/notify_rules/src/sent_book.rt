// What was sent of the notifications of a checkable.
ghost use Rattle.std.specs.Prelude.{◌≡◌, ◌<◌, ◌≤◌, ◌^◌, ◌==◌, ◌++◌, ◌∷◌, [], ℕ, List, Some, None, length, reverse, slice_get, IfOk, map, option_copied, if◌then◌else◌};
ghost use Rattle.std.specs.List.{position_from};
ghost use Rattle.site_model.specs.PlainSite.{PlainCheck, PlainSite, site_view};
ghost use Rattle.site_model.specs.Sound.{AreDistinct};
ghost use Rattle.site_model.specs.declared.decision.Decision.{Decision as Decided};
ghost use Rattle.run_meaning.specs.Decisions.{is_for_problem, users_sent, is_well};
ghost use Rattle.run_meaning.specs.View.{status_in};
ghost use Rattle.notify_rules.specs.Sent.{IsNoteIndex, number_of, noted, forgetting, is_note, IsAt, HaveDistinct, StandsFor, TellOnce, Follows};

use crate::filters::is_for_problem;
use crate::note_index::NoteIndex;
use crate::sent_note::SentNote;
use site_base::{Moment, OutOfMemory};
use site_model::{Decision, Entry, Event, Outcome, Site};
use std::alloc::Global;
use std::marker::Model;

/// What was sent of the notifications of one checkable, as its entries so far say it: when a problem was sent last, and
/// which users were told since the last result without one.
#[derive(Drop)]
pub struct SentBook {
    /// The host of a service; `None` for a host.
    host: Option<u32>,
    notes: Vec<SentNote>,
}

impl Model for SentBook {
    ghost use Rattle.notify_rules.specs.Sent.{Contents};

    ghost Value = { Contents };

    ghost view = { λ b. record { host = b.host; notes = b.notes.items } };
}

impl SentBook {
    /// The book of a checkable without entries, by an index of the site's notifications. It takes the room for every user of the
    /// checkable's notifications, so that no later call takes memory, and a time that grows with these users.
    ///
    /// # Errors
    ///
    /// `OutOfMemory` if there is none for that room.
    pub fn new(
        alloc: Global,
        site: &Site,
        index: &NoteIndex,
        checkable: u32,
    ) -> Result<SentBook, OutOfMemory>
        requires checkable { checkable < length site.now.checkables }
        requires index { IsNoteIndex (site_view site.now) index.now }
        ensures { (check : PlainCheck) → TellOnce (site_view site.now) → slice_get (site_view site.now).checkables checkable ≡ Some check →
            IfOk result (λ b. StandsFor b (site_view site.now) checkable check []) }
    {
        let mut notes = Vec::new(alloc);
        for place in index.of_checkable(checkable) {
            let note = &site.notifies.as_slice()[*place as usize];
            notes.push(SentNote::new(alloc, *place, note.users.as_slice())?)?;
        }
        Ok(SentBook {
            host: site.checkables.as_slice()[checkable as usize].host,
            notes,
        })
    }

    /// Keeps what an entry sent. The entry is the next of the checkable: its moment isn't before those of the others.
    pub fn note(&mut self, entry: &Entry)
        ensures { (s : PlainSite) (c : ℕ) (check : PlainCheck) (h : List Entry) → StandsFor self.old s c check h → Follows entry.now (reverse h) →
            StandsFor self.new s c check (h ++ entry.now ∷ []) }
    {
        self.note_sent(entry.moment, entry.decisions.as_slice());
        if is_well(self.host, &entry.event) {
            self.forget();
        }
    }

    /// Whether the checkable has no notifications.
    pub(crate) fn is_empty(&self) -> bool
        ensures { result ≡ (length self.now.notes == 0) }
    {
        self.notes.is_empty()
    }

    pub(crate) fn notes(&self) -> &[SentNote]
        ensures { result.now ≡ self.now.notes }
    {
        self.notes.as_slice()
    }

    /// Keeps which problems were sent by these decisions at a moment.
    fn note_sent(&mut self, moment: Moment, decisions: &[Decision])
        ensures host { self.new.host ≡ self.old.host }
        ensures notes { AreDistinct (map number_of self.old.notes) → HaveDistinct self.old.notes →
            self.new.notes ≡ map (noted moment decisions.now) self.old.notes }
    {
        let mut from = 0;
        for decision in decisions {
            from = self.note_one(from, moment, decision);
        }
    }

    /// The same of one decision, whose notification is looked for from a place on and then before it. Gives its place.
    fn note_one(&mut self, from: usize, moment: Moment, decision: &Decision) -> usize
        requires { from ≤ length self.old.notes }
        ensures within { result ≤ length self.new.notes }
        ensures host { self.new.host ≡ self.old.host }
        ensures notes { AreDistinct (map number_of self.old.notes) → HaveDistinct self.old.notes →
            self.new.notes ≡ map (noted moment (decision.now ∷ [])) self.old.notes }
    {
        match problem_sent(decision) {
            None => from,
            Some(users) => self.take_one(from, moment, decision.notification, users),
        }
    }

    /// A problem of a notification was sent to these users.
    fn take_one(&mut self, from: usize, moment: Moment, notification: u32, users: &[u32]) -> usize
        requires { from ≤ length self.old.notes }
        ensures within { result ≤ length self.new.notes }
        ensures host { self.new.host ≡ self.old.host }
        ensures notes { (d : Decided) → d.notification ≡ notification → Some users.now ≡ (if is_for_problem d.kind then users_sent d.outcome else None) →
            AreDistinct (map number_of self.old.notes) → HaveDistinct self.old.notes →
            self.new.notes ≡ map (noted moment (d ∷ [])) self.old.notes }
    {
        match place_from(self.notes.as_slice(), from, notification) {
            None => from,
            Some(place) => {
                self.notes[place].take(moment, users);
                place
            }
        }
    }

    /// Forgets who was told.
    fn forget(&mut self)
        ensures host { self.new.host ≡ self.old.host }
        ensures notes { self.new.notes ≡ map forgetting self.old.notes }
    {
        for note in self.notes.iter_mut() {
            note.forget();
        }
    }
}

/// Where the notification stands, looked for from a place on and then before it.
fn place_from(notes: &[SentNote], from: usize, notification: u32) -> Option<usize>
    requires { from ≤ length notes.now }
    ensures { IsAt (is_note notification) notes.now result }
{
    let (before, behind) = notes.split_at(from);
    match place_in(behind, notification) {
        Some(place) => Some(from + place),
        None => place_in(before, notification),
    }
}

fn place_in(notes: &[SentNote], notification: u32) -> Option<usize>
    ensures { result ≡ position_from (is_note notification) 0 notes.now }
{
    notes
        .iter()
        .position(|note| notification == note.notification)
}

/// To whom a decision sends a problem.
fn problem_sent(decision: &Decision) -> Option<&[u32]>
    ensures { option_copied result ≡ (if is_for_problem decision.now.kind then users_sent decision.now.outcome else None) }
{
    match &decision.outcome {
        Outcome::Sent { users } if is_for_problem(decision.kind) => Some(users.as_slice()),
        _ => None,
    }
}

/// Whether an event is a result without a problem, of a host or of a service of one.
fn is_well(host: Option<u32>, event: &Event) -> bool
    ensures { (check : PlainCheck) → host ≡ check.host → result ≡ is_well check (status_in event.now) }
{
    match (event, host) {
        (Event::Result { status, .. }, None) => *status < 2,
        (Event::Result { status, .. }, Some(_)) => *status == 0,
        _ => false,
    }
}
