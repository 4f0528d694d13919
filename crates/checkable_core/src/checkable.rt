// A host or a service with its history.
ghost use Rattle.std.specs.Prelude.{◌≡◌, ◌<◌, ◌≤◌, [], IfOk, length};
ghost use Rattle.site_model.specs.PlainSite.{site_view};
ghost use Rattle.run_meaning.specs.Dealing.{last_moment};
ghost use Rattle.run_meaning.specs.Downtimes.{in_effect};
ghost use Rattle.run_meaning.specs.Runs.{greatest_of};
ghost use Rattle.run_meaning.specs.View.{view_of};
ghost use Rattle.notify_rules.specs.Sent.{IsNoteIndex, TellOnce};
ghost use Rattle.checkable_core.specs.Contents.{check_at};

use crate::running::Running;
use notify_rules::NoteIndex;
use site_base::{Moment, OutOfMemory};
use site_model::{Entry, Site, View};
use std::alloc::Global;
use std::marker::Model;
use trail::{Told, Trail};

/// A host or a service of a site with its history: what is kept of its entries for the next one, and the entries, the oldest first,
/// for clauses alone. So it takes a memory that doesn't grow with them. Clauses see the site, the index and the entries.
#[derive(Drop)]
pub struct Checkable {
    pub(crate) alloc: Global,
    /// The site that it was made for, which clauses alone see.
    pub(crate) site: Told<Site>,
    pub(crate) index: u32,
    pub(crate) running: Running,
    /// The entries, which clauses alone see.
    pub(crate) entries: Trail<Entry>,
}

impl Model for Checkable {
    ghost use Rattle.std.specs.Coded.{codes};
    ghost use Rattle.site_base.specs.contracts.tree.Tree as tree;
    ghost use Rattle.site_model.specs.PlainSite.{site_view};
    ghost use Rattle.checkable_core.specs.Contents.{Contents};
    ghost use Rattle.checkable_core.specs.Keeping.{IsKept};

    ghost Value = { Contents };

    ghost coded = { Prim.hlevel (codes, tree.the_row.coded) };

    ghost view = { λ k. record { site = k.site.value; index = k.index; entries = k.entries.items } };

    ghost invariant = { λ k. IsKept (site_view k.site.value) k.index k.running k.entries.items };
}

impl Checkable {
    /// The checkable of this index of a site, without entries, by an index of the site's notifications.
    ///
    /// # Errors
    ///
    /// `OutOfMemory` if there is none for what is kept of its notifications.
    pub fn new(
        alloc: Global,
        site: &Site,
        notes: &NoteIndex,
        checkable: u32,
    ) -> Result<Checkable, OutOfMemory>
        requires once { TellOnce (site_view site.now) }
        requires notes { IsNoteIndex (site_view site.now) notes.now }
        requires checkable { checkable < length site.now.checkables }
        ensures { IfOk result (λ k. k ≡ record { site = site.now; index = checkable; entries = [] }) }
    {
        Ok(Checkable {
            alloc,
            site: Told::of(site),
            index: checkable,
            running: Running::new(alloc, site, notes, checkable)?,
            entries: Trail::new(),
        })
    }

    /// What others see of it.
    pub fn view(&self) -> View
        ensures { result ≡ view_of (check_at (site_view self.now.site) self.now.index) self.now.entries }
    {
        self.running.status.view()
    }

    /// The moment of its last entry, which is the greatest of all; 0 before the first.
    pub fn last_moment(&self) -> Moment
        ensures last { result ≡ last_moment self.now.entries }
        ensures greatest { result ≡ greatest_of self.now.entries }
    {
        self.running.last
    }

    /// The downtime in effect at a moment that isn't before the last entry's, by the number of the entry that began it: of
    /// several the one that starts first, and among those the one with the least number (Icinga 2 documentation, Advanced
    /// Topics, "Downtimes").
    pub fn in_effect(&self, moment: Moment) -> Option<u64>
        requires { last_moment self.now.entries ≤ moment }
        ensures { result ≡ in_effect (check_at (site_view self.now.site) self.now.index) self.now.entries moment }
    {
        self.running.book.in_effect(moment)
    }
}
