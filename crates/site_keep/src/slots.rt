// The places of a site's checkables that are restored, by index.
ghost use Rattle.std.specs.Prelude.{◌≡◌, ◌<◌, ◌^◌, All, IfOk, IfSome, None, OnOk, Some, length, slice_set};
ghost use Rattle.notify_rules.specs.Sent.{IsNoteIndex, TellOnce};
ghost use Rattle.site_model.specs.PlainSite.{site_view};
ghost use Rattle.site_posts.specs.Books.{histories_of};
ghost use Rattle.site_keep.specs.Given.{GivesNext};
ghost use Rattle.site_keep.specs.Reading.{histories_told, with_lawful};
ghost use Rattle.site_keep.specs.Slots.{entries_or, told_of, AreOf, AreSlots, IsOf};

use crate::KeepError;
use checkable_core::Checkable;
use notify_rules::NoteIndex;
use site_base::OutOfMemory;
use site_model::{Entry, Site};
use std::alloc::Global;

/// So many empty places.
pub(crate) fn empty_slots(
    alloc: Global,
    count: usize,
) -> Result<Vec<Option<Checkable>>, OutOfMemory>
    ensures length { IfOk result (λ slots. length slots.items ≡ count) }
    ensures empty { IfOk result (λ slots. All (λ slot. slot ≡ None) slots.items) }
{
    let mut slots = Vec::with_capacity(alloc, count)?;
    for index in 0..count {
        slots.push(None)?;
    }
    Ok(slots)
}

/// Restores the checkable of this index with these entries, where its place is empty.
#[tactic(auto, unfolding(crate::specs::Reading::with_lawful))]
pub(crate) fn restore_at(
    alloc: Global,
    site: &Site,
    notes: &NoteIndex,
    slots: &mut Vec<Option<Checkable>>,
    place: u32,
    entries: &[Entry],
) -> Result<(), KeepError>
    requires once { TellOnce (site_view site.now) }
    requires notes { IsNoteIndex (site_view site.now) notes.now }
    requires place { place < length site.now.checkables }
    requires are { AreSlots (site_view site.now) slots.old.items }
    ensures told { GivesNext result (told_of slots.new.items) (with_lawful (site_view site.now) (told_of slots.old.items) place entries.now) }
    ensures are { OnOk result (AreSlots (site_view site.now) slots.new.items) }
{
    if slots[place as usize].is_some() {
        return Err(KeepError::BadState);
    }
    let checkable = Checkable::restored(alloc, site, notes, place, entries)?;
    put(slots, place, checkable);
    Ok(())
}

/// Puts a checkable into its place.
fn put(slots: &mut Vec<Option<Checkable>>, place: u32, checkable: Checkable)
    requires { place < length slots.old.items }
    ensures { slots.new.items ≡ slice_set slots.old.items place (Some checkable) }
{
    slots[place as usize] = Some(checkable);
}

/// The checkables, where one without entries stands in each empty place.
pub(crate) fn filled(
    alloc: Global,
    site: &Site,
    notes: &NoteIndex,
    slots: Vec<Option<Checkable>>,
) -> Result<Vec<Checkable>, OutOfMemory>
    requires once { TellOnce (site_view site.now) }
    requires notes { IsNoteIndex (site_view site.now) notes.now }
    requires few { length site.now.checkables < 2 ^ 32 }
    requires are { AreSlots (site_view site.now) slots.items }
    ensures histories { IfOk result (λ books. histories_of books.items ≡ histories_told (told_of slots.items)) }
    ensures are { IfOk result (λ books. AreOf (site_view site.now) books.items) }
{
    let mut books = Vec::with_capacity(alloc, slots.len())?;
    for slot in slots {
        let book = book_at(alloc, site, notes, books.len(), slot)?;
        books.push(book)?;
    }
    Ok(books)
}

/// The checkable of a place, which has no entries where the place is empty.
fn book_at(
    alloc: Global,
    site: &Site,
    notes: &NoteIndex,
    place: usize,
    slot: Option<Checkable>,
) -> Result<Checkable, OutOfMemory>
    requires once { TellOnce (site_view site.now) }
    requires notes { IsNoteIndex (site_view site.now) notes.now }
    requires few { length site.now.checkables < 2 ^ 32 }
    requires place { place < length site.now.checkables }
    requires own { IfSome slot (IsOf (site_view site.now) place) }
    ensures entries { IfOk result (λ book. book.entries ≡ entries_or slot) }
    ensures own { IfOk result (IsOf (site_view site.now) place) }
{
    match slot {
        Some(book) => Ok(book),
        None => Checkable::new(alloc, site, notes, place as u32),
    }
}
