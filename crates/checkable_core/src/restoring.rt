// A checkable that has entries from the start.
ghost use Rattle.std.specs.Prelude.{◌≡◌, ◌<◌, IfOk, IsErrOf, length};
ghost use Rattle.site_model.specs.PlainSite.{site_view};
ghost use Rattle.notify_rules.specs.Sent.{IsNoteIndex, TellOnce};
ghost use Rattle.checkable_core.specs.Histories.{IsHistory};

use crate::histories::is_history;
use crate::running::Running;
use crate::{Checkable, RestoreFault};
use notify_rules::NoteIndex;
use site_model::{Entry, Site};
use std::alloc::Global;
use trail::{Told, Trail};

impl Checkable {
    /// The checkable of this index of a site, with these entries, the oldest first, by an index of the site's notifications. The
    /// entries' events, moments and decisions count as they are, and whether an event was taken; states aren't compared with what
    /// the events make.
    ///
    /// # Errors
    ///
    /// `BadHistory` if a checkable of the site can't have these entries, before any memory is asked for. `OutOfMemory` if
    /// there is none for what is kept of its notifications and downtimes.
    pub fn restored(
        alloc: Global,
        site: &Site,
        notes: &NoteIndex,
        checkable: u32,
        entries: &[Entry],
    ) -> Result<Checkable, RestoreFault>
        requires once { TellOnce (site_view site.now) }
        requires notes { IsNoteIndex (site_view site.now) notes.now }
        requires checkable { checkable < length site.now.checkables }
        ensures ok { IfOk result (λ k. (k ≡ record { site = site.now; index = checkable; entries = entries.now }) × IsHistory (site_view site.now) entries.now) }
        ensures bad { IsErrOf result RestoreFault.BadHistory → ¬ IsHistory (site_view site.now) entries.now }
        ensures memory { IsErrOf result RestoreFault.OutOfMemory → IsHistory (site_view site.now) entries.now }
    {
        if !is_history(site, entries) {
            return Err(RestoreFault::BadHistory);
        }
        let running = Running::after(alloc, site, notes, checkable, entries)?;
        Ok(Checkable {
            alloc,
            site: Told::of(site),
            index: checkable,
            running,
            entries: Trail::of(entries),
        })
    }
}
