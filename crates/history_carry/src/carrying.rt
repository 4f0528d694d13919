// The checkables of a site with the histories of another one.
ghost use Rattle.std.specs.Prelude.{◌≡◌, ◌<◌, ◌^◌, All, IfOk, length};
ghost use Rattle.checkable_core.specs.Histories.{IsHistory};
ghost use Rattle.notify_rules.specs.Sent.{IsNoteIndex, TellOnce};
ghost use Rattle.turn_engine.specs.Checkables.{AreOf};
ghost use Rattle.site_model.specs.Names.{place_of};
ghost use Rattle.site_model.specs.PlainSite.{full_names, site_view};
ghost use Rattle.site_model.specs.Sound.{HasNames, IsSound};
ghost use Rattle.site_posts.specs.Books.{histories_of};
ghost use Rattle.history_carry.specs.Carried.{carried, histories_named, history_at};

use crate::entries::carried_histories;
use crate::moves::Moves;
use checkable_core::{Checkable, RestoreFault};
use notify_rules::NoteIndex;
use site_base::{OutOfMemory, Row};
use site_model::{Entry, Site};
use std::alloc::Global;

/// The checkables of a site, one each by index, with the entries that those of another site had: these are the entries of that site's
/// checkables, one list for each by index. One whose full name the other site had has the entries that it had there, and any other has
/// none. In an entry the sights, decisions and users whose names are gone are dropped, and so is a decision whose outcome names a
/// dependency or host that is gone; the rest has its places in the site, in ascending order. All else of an entry stays.
///
/// The time is linear in the names of both sites and in the entries, beside the sorting of what each of them names and that of
/// `Checkable::restored`. The entries are moved, and no text of them is copied.
///
/// # Errors
///
/// `OutOfMemory` if there is too little memory for the places of names, for what entries name, or for the checkables.
pub fn carry(
    alloc: Global,
    old: &Site,
    histories: Vec<Row<Entry>>,
    new: &Site,
) -> Result<Vec<Checkable>, OutOfMemory>
    requires old_sound { IsSound (site_view old.now) }
    requires new_sound { IsSound (site_view new.now) }
    requires few { length new.now.checkables < 2 ^ 32 }
    requires whole { length histories.items ≡ length old.now.checkables }
    requires lawful { All (IsHistory (site_view old.now)) histories.items }
    ensures carried { IfOk result (λ books. histories_of books.items ≡ carried (site_view old.now) (site_view new.now) histories.items) }
    ensures lawful { IfOk result (λ books. All (IsHistory (site_view new.now)) (histories_of books.items)) }
    ensures are { IfOk result (λ books. AreOf (site_view new.now) books.items) }
{
    let moves = Moves::between(alloc, old, new)?;
    let carried = carried_histories(alloc, &moves, histories)?;
    checkables_with(alloc, old, carried.as_slice(), new)
}

/// The checkables of a site with these histories, which are by index of the old one, whose lists the site may have.
fn checkables_with(
    alloc: Global,
    old: &Site,
    histories: &[Row<Entry>],
    new: &Site,
) -> Result<Vec<Checkable>, OutOfMemory>
    requires names { HasNames (site_view old.now) }
    requires sound { IsSound (site_view new.now) }
    requires few { length new.now.checkables < 2 ^ 32 }
    requires whole { length histories.now ≡ length old.now.checkables }
    requires lawful { All (IsHistory (site_view new.now)) histories.now }
    ensures entries { IfOk result (λ books. histories_of books.items ≡ histories_named (full_names (site_view old.now)) histories.now (full_names (site_view new.now))) }
    ensures are { IfOk result (λ books. AreOf (site_view new.now) books.items) }
{
    let notes = NoteIndex::of(alloc, new)?;
    let mut books = Vec::with_capacity(alloc, new.checkables.len())?;
    for check in new.checkables.as_slice() {
        let entries = entries_of(old, histories, check.name.as_str());
        let book = restored(alloc, new, &notes, books.len(), entries)?;
        books.push(book)?;
    }
    Ok(books)
}

/// The entries of the checkable of this full name; none if the site has none of that name.
fn entries_of<'h>(site: &Site, histories: &'h [Row<Entry>], name: &str) -> &'h [Entry]
    requires names { HasNames (site_view site.now) }
    requires whole { length histories.now ≡ length site.now.checkables }
    ensures { result.now ≡ history_at histories.now (place_of name.now (full_names (site_view site.now))) }
{
    match site.find(name) {
        Some(place) => histories[place as usize].as_slice(),
        None => &[],
    }
}

/// The checkable of this index with entries that it may have.
fn restored(
    alloc: Global,
    site: &Site,
    notes: &NoteIndex,
    place: usize,
    entries: &[Entry],
) -> Result<Checkable, OutOfMemory>
    requires once { TellOnce (site_view site.now) }
    requires notes { IsNoteIndex (site_view site.now) notes.now }
    requires few { length site.now.checkables < 2 ^ 32 }
    requires place { place < length site.now.checkables }
    requires lawful { IsHistory (site_view site.now) entries.now }
    ensures { IfOk result (λ k. k ≡ record { site = site.now; index = place; entries = entries.now }) }
{
    match Checkable::restored(alloc, site, notes, place as u32, entries) {
        Ok(checkable) => Ok(checkable),
        Err(RestoreFault::OutOfMemory) => Err(OutOfMemory),
        Err(RestoreFault::BadHistory) => unreachable!(),
    }
}
