// The checkables that a text names whose members stand in any order.
ghost use Rattle.std.specs.Prelude.{◌≡◌, ◌<◌, IfOk, OnOk, length};
ghost use Rattle.serde_json.specs.View.{items_view, view};
ghost use Rattle.log_text.specs.SiteNames.{names_of, names_view};
ghost use Rattle.notify_rules.specs.Sent.{IsNoteIndex, TellOnce};
ghost use Rattle.site_model.specs.PlainSite.{site_view};
ghost use Rattle.site_keep.specs.Given.{Gives, GivesNext};
ghost use Rattle.site_keep.specs.Reading.{checkables_in, none_told, told_read, with_all, with_entries, with_one};
ghost use Rattle.site_keep.specs.Slots.{told_of, AreSlots};

use crate::KeepError;
use crate::entries::read_entries;
use crate::shape::{read_value, two_members};
use crate::slots::{empty_slots, restore_at};
use checkable_core::Checkable;
use log_text::SiteNames;
use notify_rules::NoteIndex;
use serde_json::Value;
use site_model::Site;
use std::alloc::Global;

/// The checkables that a state file names, by index, whatever the order of the members of its objects. It is held as a JSON value.
pub(crate) fn read_in_any_order(
    alloc: Global,
    bytes: &[u8],
    site: &Site,
    names: &SiteNames,
    notes: &NoteIndex,
) -> Result<Vec<Option<Checkable>>, KeepError>
    requires once { TellOnce (site_view site.now) }
    requires names { names_view names.now ≡ names_of (site_view site.now) }
    requires notes { IsNoteIndex (site_view site.now) notes.now }
    requires named { length site.now.names ≡ length site.now.checkables }
    ensures told { Gives (λ slots. told_of slots.items) result (told_read (site_view site.now) bytes.now) }
    ensures are { IfOk result (λ slots. AreSlots (site_view site.now) slots.items) }
{
    let value = read_value(alloc, bytes)?;
    let checkables = checkables_of(&value)?;
    read_checkables(alloc, site, names, notes, checkables)
}

/// The checkables of a state file of version 1.
#[tactic(auto, unfolding(crate::specs::Reading::checkables_in))]
fn checkables_of(value: &Value) -> Result<&Vec<Value>, KeepError>
    ensures { Gives (λ v. items_view v.now.items) result (checkables_in (view value.now)) }
{
    let Some((checkables, version)) = two_members(value, "checkables", "version") else {
        return Err(KeepError::BadState);
    };
    if version.as_u64() != Some(1) {
        return Err(KeepError::BadState);
    }
    match checkables.as_array() {
        Some(checkables) => Ok(checkables),
        None => Err(KeepError::BadState),
    }
}

/// The checkables that are named, by index.
fn read_checkables(
    alloc: Global,
    site: &Site,
    names: &SiteNames,
    notes: &NoteIndex,
    checkables: &[Value],
) -> Result<Vec<Option<Checkable>>, KeepError>
    requires once { TellOnce (site_view site.now) }
    requires names { names_view names.now ≡ names_of (site_view site.now) }
    requires notes { IsNoteIndex (site_view site.now) notes.now }
    requires named { length site.now.names ≡ length site.now.checkables }
    ensures told { Gives (λ slots. told_of slots.items) result (with_all (site_view site.now) (none_told (site_view site.now)) (items_view checkables.now)) }
    ensures are { IfOk result (λ slots. AreSlots (site_view site.now) slots.items) }
{
    let mut slots = empty_slots(alloc, site.checkables.len())?;
    for checkable in checkables {
        read_checkable(alloc, site, names, notes, &mut slots, checkable)?;
    }
    Ok(slots)
}

/// Adds the checkable that is named here.
#[tactic(auto, unfolding(crate::specs::Reading::with_one))]
fn read_checkable(
    alloc: Global,
    site: &Site,
    names: &SiteNames,
    notes: &NoteIndex,
    slots: &mut Vec<Option<Checkable>>,
    value: &Value,
) -> Result<(), KeepError>
    requires once { TellOnce (site_view site.now) }
    requires names { names_view names.now ≡ names_of (site_view site.now) }
    requires notes { IsNoteIndex (site_view site.now) notes.now }
    requires named { length site.now.names ≡ length site.now.checkables }
    requires are { AreSlots (site_view site.now) slots.old.items }
    ensures told { GivesNext result (told_of slots.new.items) (with_one (site_view site.now) (told_of slots.old.items) (view value.now)) }
    ensures are { OnOk result (AreSlots (site_view site.now) slots.new.items) }
{
    let Some((entries, name)) = two_members(value, "entries", "name") else {
        return Err(KeepError::BadState);
    };
    let Some(name) = name.as_str() else {
        return Err(KeepError::BadState);
    };
    let Some(place) = site.names.find(name) else {
        return Err(KeepError::BadState);
    };
    restore_entries(alloc, site, names, notes, slots, entries, place)
}

/// Restores the checkable of this index, where its place is empty.
fn restore_entries(
    alloc: Global,
    site: &Site,
    names: &SiteNames,
    notes: &NoteIndex,
    slots: &mut Vec<Option<Checkable>>,
    entries: &Value,
    place: u32,
) -> Result<(), KeepError>
    requires once { TellOnce (site_view site.now) }
    requires names { names_view names.now ≡ names_of (site_view site.now) }
    requires notes { IsNoteIndex (site_view site.now) notes.now }
    requires place { place < length site.now.checkables }
    requires are { AreSlots (site_view site.now) slots.old.items }
    ensures told { GivesNext result (told_of slots.new.items) (with_entries (site_view site.now) (told_of slots.old.items) (view entries.now) place) }
    ensures are { OnOk result (AreSlots (site_view site.now) slots.new.items) }
{
    let entries = read_entries(alloc, entries, place, names)?;
    restore_at(alloc, site, notes, slots, place, entries.as_slice())
}
