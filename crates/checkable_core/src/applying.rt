// The entry that an event makes of a checkable.
ghost use Rattle.std.specs.Prelude.{◌≡◌, ℕ, ◌≤◌, ◌++◌, ◌∷◌, [], IfOk, IfErr, OnOk, OnErr, map};
ghost use Rattle.site_model.specs.PlainSite.{site_view};
ghost use Rattle.run_meaning.specs.Dealing.{last_moment};
ghost use Rattle.run_meaning.specs.Reachability.{ancestors};
ghost use Rattle.depend_graph.specs.Graph.{IsGraphOf};
ghost use Rattle.check_state.specs.Stands.{StandsFor};
ghost use Rattle.checkable_core.specs.Contents.{check_at, with_entry};
ghost use Rattle.checkable_core.specs.Entries.{entry_made};

use crate::Checkable;
use crate::deciding::decisions;
use crate::sights::sights_of;
use crate::stepping::draft;
use check_state::Status;
use depend_graph::Graph;
use site_base::{Moment, OutOfMemory};
use site_model::{Entry, Event, Site, View};
use time_range::Zone;

impl Checkable {
    /// Takes an event that a caller brings at a moment, by what the ancestors of the checkable show, ascending, and gives the
    /// entry that it makes, which is its newest from then on. The site is the one that the checkable was made for, and the
    /// moment isn't before the last entry's.
    ///
    /// # Errors
    ///
    /// The event, for want of memory alone, or of a number after 2^64 - 1 entries; the checkable is then as before.
    pub fn apply(
        &mut self,
        site: &Site,
        graph: &Graph,
        zone: &Zone,
        caller: u32,
        moment: Moment,
        event: Event,
        sights: &[(u32, View)],
    ) -> Result<Entry, Event>
        requires site { site_view self.old.site ≡ site_view site.now }
        requires graph { IsGraphOf (site_view site.now) graph.now }
        requires moment { last_moment self.old.entries ≤ moment }
        requires sights { map (λ s. s.0) sights.now ≡ ancestors (site_view site.now) self.old.index }
        ensures entry { IfOk result (λ e. e ≡ entry_made (site_view site.now) zone.now self.old.index self.old.entries caller moment event sights.now) }
        ensures kept { IfOk result (λ e. self.new ≡ with_entry self.old e) }
        ensures refused { IfErr result (λ e. (e ≡ event) × (self.new ≡ self.old)) }
    {
        if self.running.status.view().count == u64::MAX {
            return Err(event);
        }
        let index = self.index;
        let spec = &site.checkables.as_slice()[index as usize];
        let made = draft(
            &self.running.status,
            &self.running.book,
            spec,
            moment,
            &event,
        );
        let Ok(decided) = decisions(
            self.alloc,
            site,
            graph,
            zone,
            index,
            &self.running,
            &made,
            moment,
            &event,
            sights,
        ) else {
            return Err(event);
        };
        let Ok(seen) = sights_of(self.alloc, sights) else {
            return Err(event);
        };
        let view = made.status.view();
        let entry = Entry {
            caller,
            number: view.count,
            moment,
            event,
            taken: made.taken,
            state: view.state,
            hard: view.hard,
            attempt: view.attempt,
            sights: seen,
            decisions: decided,
        };
        match self.keep(made.status, &entry) {
            Ok(()) => Ok(entry),
            Err(OutOfMemory) => Err(entry.event),
        }
    }

    /// With one entry more, which it shows so.
    ///
    /// # Errors
    ///
    /// `OutOfMemory` if there is none for its downtime; the checkable is then as before.
    fn keep(&mut self, status: Status, entry: &Entry) -> Result<(), OutOfMemory>
        requires moment { last_moment self.old.entries ≤ entry.now.moment }
        requires shown { StandsFor status (check_at (site_view self.old.site) self.old.index) (self.old.entries ++ entry.now ∷ []) }
        ensures ok { OnOk result (self.new ≡ with_entry self.old entry.now) }
        ensures err { OnErr result (self.new ≡ self.old) }
    {
        self.running.keep(status, entry)?;
        self.entries = self.entries.and(entry);
        Ok(())
    }
}
