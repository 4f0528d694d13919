// What is kept of the entries of a checkable for the next one.
ghost use Rattle.std.specs.Prelude.{◌≡◌, ◌<◌, ◌≤◌, ◌-◌, ◌^◌, ◌++◌, ◌∷◌, [], ℕ, List, IfOk, OnOk, OnErr, length};
ghost use Rattle.site_model.specs.PlainSite.{PlainCheck, PlainSite, check_view, site_view};
ghost use Rattle.site_model.specs.declared.entry.Entry.{Entry};
ghost use Rattle.run_meaning.specs.Dealing.{last_moment};
ghost use Rattle.check_state.specs.Stands.{StandsFor};
ghost use Rattle.notify_rules.specs.Sent.{IsNoteIndex, TellOnce};
ghost use Rattle.checkable_core.specs.Histories.{Rises};
ghost use Rattle.checkable_core.specs.Keeping.{Keeps, IsKept};

use crate::downtimes::enter;
use crate::stepping::follow;
use check_state::{Status, is_problem};
use downtime_book::Book;
use notify_rules::{NoteIndex, SentBook};
use site_base::{Moment, OutOfMemory};
use site_model::{CheckSpec, Entry, Site};
use std::alloc::Global;

/// What is kept of the entries of a checkable for the next one: what they show, the last one's moment, the downtimes that aren't
/// past, and what was sent of its notifications.
#[derive(Drop)]
pub(crate) struct Running {
    pub status: Status,
    /// 0 before the first.
    pub last: Moment,
    pub book: Book,
    pub sent: SentBook,
}

impl Running {
    /// Before any entry.
    ///
    /// # Errors
    ///
    /// `OutOfMemory` if there is none for the users of its notifications.
    pub(crate) fn new(
        alloc: Global,
        site: &Site,
        notes: &NoteIndex,
        checkable: u32,
    ) -> Result<Running, OutOfMemory>
        requires once { TellOnce (site_view site.now) }
        requires notes { IsNoteIndex (site_view site.now) notes.now }
        requires checkable { checkable < length site.now.checkables }
        ensures { IfOk result (λ r. IsKept (site_view site.now) checkable r []) }
    {
        let sent = SentBook::new(alloc, site, notes, checkable)?;
        Ok(Running {
            status: Status::new(&site.checkables.as_slice()[checkable as usize]),
            last: Moment::of(0).unwrap(),
            book: Book::new(alloc),
            sent,
        })
    }

    /// With one entry more, which the checkable shows so.
    ///
    /// # Errors
    ///
    /// `OutOfMemory` if there is none for a new downtime; all is then as before.
    pub(crate) fn keep(&mut self, status: Status, entry: &Entry) -> Result<(), OutOfMemory>
        requires { self.old.book.latest ≤ entry.now.moment }
        ensures ok { OnOk result ((s : PlainSite) (k : ℕ) (check : PlainCheck) (h : List Entry) → Keeps self.old s k check h → last_moment h ≤ entry.now.moment → StandsFor status check (h ++ entry.now ∷ []) →
            Keeps self.new s k check (h ++ entry.now ∷ [])) }
        ensures latest { OnOk result (self.new.book.latest ≤ entry.now.moment) }
        ensures err { OnErr result (self.new ≡ self.old) }
    {
        let view = status.view();
        let problem = is_problem(view.state);
        enter(
            &mut self.book,
            view.count,
            entry.moment,
            &entry.event,
            entry.taken,
            problem,
        )?;
        self.status = status;
        self.last = entry.moment;
        self.sent.note(entry);
        Ok(())
    }

    /// With an entry as it is.
    ///
    /// # Errors
    ///
    /// Those of `keep`.
    fn take(&mut self, spec: &CheckSpec, entry: &Entry) -> Result<(), OutOfMemory>
        requires count { self.old.status.view.count < 2 ^ 64 - 1 }
        requires latest { self.old.book.latest ≤ entry.now.moment }
        ensures { OnOk result ((s : PlainSite) (k : ℕ) (h : List Entry) → Keeps self.old s k (check_view spec.now) h → last_moment h ≤ entry.now.moment →
            Keeps self.new s k (check_view spec.now) (h ++ entry.now ∷ [])) }
    {
        let mut status = self.status;
        follow(&mut status, spec, entry);
        self.keep(status, entry)
    }

    /// After these entries.
    ///
    /// # Errors
    ///
    /// `OutOfMemory` if there is none for the users of its notifications or for downtimes.
    pub(crate) fn after(
        alloc: Global,
        site: &Site,
        notes: &NoteIndex,
        checkable: u32,
        entries: &[Entry],
    ) -> Result<Running, OutOfMemory>
        requires once { TellOnce (site_view site.now) }
        requires notes { IsNoteIndex (site_view site.now) notes.now }
        requires checkable { checkable < length site.now.checkables }
        requires count { length entries.now < 2 ^ 64 - 1 }
        requires moments { Rises 0 entries.now }
        ensures { IfOk result (λ r. IsKept (site_view site.now) checkable r entries.now) }
    {
        let mut running = Running::new(alloc, site, notes, checkable)?;
        let spec = &site.checkables.as_slice()[checkable as usize];
        for entry in entries {
            running.take(spec, entry)?;
        }
        Ok(running)
    }
}
