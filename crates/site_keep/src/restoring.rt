// Restoring the checkables of a state file.
ghost use Rattle.std.specs.Prelude.{◌≡◌, ◌<◌, ◌^◌, IfOk, IsErrOf, length};
ghost use Rattle.std.specs.Str.{IsUtf8};
ghost use Rattle.log_text.specs.EntryTwo.{AreTexts};
ghost use Rattle.log_text.specs.SiteNames.{names_of, names_view};
ghost use Rattle.notify_rules.specs.Sent.{IsNoteIndex, TellOnce};
ghost use Rattle.run_meaning.specs.Turns.{Histories};
ghost use Rattle.site_model.specs.PlainSite.{site_view};
ghost use Rattle.site_model.specs.Sound.{IsSound};
ghost use Rattle.site_posts.specs.Books.{histories_of};
ghost use Rattle.site_keep.specs.Given.{Gives, Tells};
ghost use Rattle.site_keep.specs.Reading.{state_read, told_read};
ghost use Rattle.site_keep.specs.Slots.{told_of, AreOf, AreSlots};
ghost use Rattle.site_keep.specs.StateFile.{state_file, AreKept};
ghost use Rattle.site_keep.specs.States.{IsState};

use crate::KeepError;
use crate::any_order::read_in_any_order;
use crate::in_order::read_in_order;
use crate::slots::filled;
use checkable_core::Checkable;
use log_text::SiteNames;
use notify_rules::NoteIndex;
use site_model::Site;
use std::alloc::Global;

/// The checkables of a site, one each by index, with the entries that a state file has of them. One that it doesn't name has none. It
/// may name them in any order.
///
/// The time is linear in the bytes, beside that of `Checkable::restored`: names are looked up by hash, and each at most once. If members
/// stand in the order in which `save` writes them, no more memory is taken than the bytes have, beside the checkables and the entries of
/// one at a time. In another order the text is read again, and held as a JSON value.
///
/// # Errors
///
/// `BadState` where the bytes are no state file of the site: they aren't UTF-8, or no JSON text of exactly the shape that
/// [`save`](crate::save) gives; a name is none of the site's, or stands twice; a line is of no entry, or of one of another checkable; or
/// `Checkable::restored` gives `BadHistory` of a checkable's entries. `OutOfMemory` if there is none for the value or the checkables.
pub fn restore(alloc: Global, bytes: &[u8], site: &Site) -> Result<Vec<Checkable>, KeepError>
    requires sound { IsSound (site_view site.now) }
    requires few { length site.now.checkables < 2 ^ 32 }
    ensures told { Gives (λ books. histories_of books.items) result (state_read (site_view site.now) bytes.now) }
    ensures ok { IfOk result (λ books. IsState (site_view site.now) bytes.now (histories_of books.items)) }
    ensures bad { IsErrOf result KeepError.BadState → (hs : Histories) → IsState (site_view site.now) bytes.now hs → ⊥ }
    ensures are { IfOk result (λ books. AreOf (site_view site.now) books.items) }
    ensures saved { (hs : Histories) → AreTexts (names_of (site_view site.now)) → AreKept (site_view site.now) hs → IsUtf8 bytes.now → bytes.now ≡ state_file (site_view site.now) hs →
        Tells (λ books. histories_of books.items ≡ hs) result }
{
    read_state(alloc, bytes, site)
}

fn read_state(alloc: Global, bytes: &[u8], site: &Site) -> Result<Vec<Checkable>, KeepError>
    requires sound { IsSound (site_view site.now) }
    requires few { length site.now.checkables < 2 ^ 32 }
    ensures told { Gives (λ books. histories_of books.items) result (state_read (site_view site.now) bytes.now) }
    ensures are { IfOk result (λ books. AreOf (site_view site.now) books.items) }
{
    let names = SiteNames::of(alloc, site)?;
    let notes = NoteIndex::of(alloc, site)?;
    let slots = read_slots(alloc, bytes, site, &names, &notes)?;
    Ok(filled(alloc, site, &notes, slots)?)
}

/// The checkables that are named, by index.
fn read_slots(
    alloc: Global,
    bytes: &[u8],
    site: &Site,
    names: &SiteNames,
    notes: &NoteIndex,
) -> Result<Vec<Option<Checkable>>, KeepError>
    requires once { TellOnce (site_view site.now) }
    requires names { names_view names.now ≡ names_of (site_view site.now) }
    requires notes { IsNoteIndex (site_view site.now) notes.now }
    requires named { length site.now.names ≡ length site.now.checkables }
    ensures told { Gives (λ slots. told_of slots.items) result (told_read (site_view site.now) bytes.now) }
    ensures are { IfOk result (λ slots. AreSlots (site_view site.now) slots.items) }
{
    match read_in_order(alloc, bytes, site, names, notes) {
        Ok(slots) => Ok(slots),
        Err(KeepError::BadState) => read_in_any_order(alloc, bytes, site, names, notes),
        Err(KeepError::OutOfMemory) => Err(KeepError::OutOfMemory),
    }
}
