// The checkables that a text names whose members stand in the order in which they are written.
ghost use Rattle.std.specs.Prelude.{◌≡◌, ◌<◌, ◌∷◌, [], codes, decimal, length, IfOk, OnOk, Some};
ghost use Rattle.json.specs.Token.{end_object, key, number};
ghost use Rattle.log_text.specs.SiteNames.{names_of, names_view};
ghost use Rattle.notify_rules.specs.Sent.{IsNoteIndex, TellOnce};
ghost use Rattle.site_model.specs.PlainSite.{site_view};
ghost use Rattle.site_keep.specs.Passing.{MayBe, PassesCheckable, PassesCheckables, PassesFile, PassesName};
ghost use Rattle.site_keep.specs.Reading.{told_read, with_lawful};
ghost use Rattle.site_keep.specs.Slots.{told_of, AreSlots};

use crate::KeepError;
use crate::lines::{Lines, is_or_none, take_lines};
use crate::slots::{empty_slots, restore_at};
use crate::tokens::{
    close_object, open_array, open_object, take_end, take_key, take_one, take_string,
};
use checkable_core::Checkable;
use json::{Reader, Scratch};
use log_text::SiteNames;
use notify_rules::NoteIndex;
use site_model::Site;
use std::alloc::Global;

/// The checkables that a state file names, by index, if the members of its objects stand in the order in which
/// [`save`](crate::save) writes them. `BadState` if they stand otherwise, or it is no state file.
///
/// It is read token by token, so beside its bytes as many more are taken, for texts without their escapes, and the entries of one checkable
/// at a time.
pub(crate) fn read_in_order(
    alloc: Global,
    bytes: &[u8],
    site: &Site,
    names: &SiteNames,
    notes: &NoteIndex,
) -> Result<Vec<Option<Checkable>>, KeepError>
    requires once { TellOnce (site_view site.now) }
    requires names { names_view names.now ≡ names_of (site_view site.now) }
    requires notes { IsNoteIndex (site_view site.now) notes.now }
    requires named { length site.now.names ≡ length site.now.checkables }
    ensures told { IfOk result (λ slots. told_read (site_view site.now) bytes.now ≡ Some (told_of slots.items)) }
    ensures are { IfOk result (λ slots. AreSlots (site_view site.now) slots.items) }
{
    let Ok(text) = str::from_utf8(bytes) else {
        return Err(KeepError::BadState);
    };
    let mut scratch = Scratch::new(alloc);
    let mut reader = Reader::new(text, &mut scratch)?;
    take_file(alloc, &mut reader, site, names, notes)
}

fn take_file(
    alloc: Global,
    reader: &mut Reader<'_>,
    site: &Site,
    names: &SiteNames,
    notes: &NoteIndex,
) -> Result<Vec<Option<Checkable>>, KeepError>
    requires once { TellOnce (site_view site.now) }
    requires names { names_view names.now ≡ names_of (site_view site.now) }
    requires notes { IsNoteIndex (site_view site.now) notes.now }
    requires named { length site.now.names ≡ length site.now.checkables }
    ensures told { IfOk result (λ slots. PassesFile (site_view site.now) (told_of slots.items) reader.old) }
    ensures are { IfOk result (λ slots. AreSlots (site_view site.now) slots.items) }
{
    open_object(reader)?;
    take_key(reader, "checkables")?;
    let slots = take_checkables(alloc, reader, site, names, notes)?;
    take_version(reader)?;
    Ok(slots)
}

/// Takes version 1, with which the object and the text end.
fn take_version(reader: &mut Reader<'_>) -> Result<(), KeepError>
    ensures { OnOk result (reader.old ≡ key (codes "version") ∷ number (decimal 1) ∷ end_object ∷ []) }
{
    take_key(reader, "version")?;
    take_one(reader)?;
    close_object(reader)?;
    take_end(reader)
}

fn take_checkables(
    alloc: Global,
    reader: &mut Reader<'_>,
    site: &Site,
    names: &SiteNames,
    notes: &NoteIndex,
) -> Result<Vec<Option<Checkable>>, KeepError>
    requires once { TellOnce (site_view site.now) }
    requires names { names_view names.now ≡ names_of (site_view site.now) }
    requires notes { IsNoteIndex (site_view site.now) notes.now }
    requires named { length site.now.names ≡ length site.now.checkables }
    ensures told { IfOk result (λ slots. PassesCheckables (site_view site.now) (told_of slots.items) reader.old reader.new) }
    ensures are { IfOk result (λ slots. AreSlots (site_view site.now) slots.items) }
{
    open_array(reader)?;
    let mut slots = empty_slots(alloc, site.checkables.len())?;
    'checkables: while !reader.take_end_array() {
        take_checkable(alloc, reader, site, names, notes, &mut slots)?;
    }
    Ok(slots)
}

/// Takes a checkable, which is restored.
fn take_checkable(
    alloc: Global,
    reader: &mut Reader<'_>,
    site: &Site,
    names: &SiteNames,
    notes: &NoteIndex,
    slots: &mut Vec<Option<Checkable>>,
) -> Result<(), KeepError>
    requires once { TellOnce (site_view site.now) }
    requires names { names_view names.now ≡ names_of (site_view site.now) }
    requires notes { IsNoteIndex (site_view site.now) notes.now }
    requires named { length site.now.names ≡ length site.now.checkables }
    requires are { AreSlots (site_view site.now) slots.old.items }
    ensures told { OnOk result (PassesCheckable (site_view site.now) (told_of slots.old.items) (told_of slots.new.items) reader.old reader.new) }
    ensures are { OnOk result (AreSlots (site_view site.now) slots.new.items) }
{
    open_object(reader)?;
    take_key(reader, "entries")?;
    let lines = take_lines(alloc, reader, names)?;
    let place = take_name(reader, site)?;
    restore_lines(alloc, site, notes, slots, place, &lines)?;
    Ok(())
}

/// Takes the name of a checkable, with which its object ends, and finds the checkable's index.
fn take_name(reader: &mut Reader<'_>, site: &Site) -> Result<u32, KeepError>
    requires named { length site.now.names ≡ length site.now.checkables }
    ensures { IfOk result (λ place. PassesName (site_view site.now) place reader.old reader.new) }
{
    take_key(reader, "name")?;
    let name = take_string(reader)?;
    close_object(reader)?;
    match site.names.find(name) {
        Some(place) => Ok(place),
        None => Err(KeepError::BadState),
    }
}

/// Restores the checkable of this index with these entries, if they are its own and its place is empty.
fn restore_lines(
    alloc: Global,
    site: &Site,
    notes: &NoteIndex,
    slots: &mut Vec<Option<Checkable>>,
    place: u32,
    lines: &Lines,
) -> Result<(), KeepError>
    requires once { TellOnce (site_view site.now) }
    requires notes { IsNoteIndex (site_view site.now) notes.now }
    requires place { place < length site.now.checkables }
    requires are { AreSlots (site_view site.now) slots.old.items }
    ensures own { OnOk result (MayBe lines.now.place place) }
    ensures told { OnOk result (with_lawful (site_view site.now) (told_of slots.old.items) place lines.now.entries.items ≡ Some (told_of slots.new.items)) }
    ensures are { OnOk result (AreSlots (site_view site.now) slots.new.items) }
{
    if !is_or_none(lines.place, place) {
        return Err(KeepError::BadState);
    }
    restore_at(alloc, site, notes, slots, place, lines.entries.as_slice())
}
