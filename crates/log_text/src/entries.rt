// Reading the lines of entries.
ghost use Rattle.std.specs.Prelude.{◌≡◌, ℕ, Some, IfOk};
ghost use Rattle.site_model.specs.PlainSite.{PlainSite};
ghost use Rattle.site_model.specs.declared.entry.Entry.{Entry};
ghost use Rattle.site_text.specs.Entries.{entry_line};
ghost use Rattle.log_text.specs.EntryReading.{ended, entry_at, entry_read, entry_two_read, told_at};
ghost use Rattle.log_text.specs.EntryTwo.{entry_line_two, untold, AreTexts, IsEntryOf, IsLineOf, IsLineTwoOf};
ghost use Rattle.log_text.specs.Fronts.{Gives};
ghost use Rattle.log_text.specs.SiteNames.{names_of, names_view, HasAllNames};

use crate::decisions::read_decisions;
use crate::effects::read_effect;
use crate::fields::{behind, read_text};
use crate::heads::read_head;
use crate::sights::read_sights;
use crate::{EntryError, SiteNames};
use site_model::{Entry, Event};
use std::alloc::Global;

/// The checkable and the entry that a line of version one is of, where a result's texts are empty.
///
/// `BadLine` if the line is of no entry of the site, and `OutOfMemory` if there is no memory for the
/// entry.
pub fn read_entry(alloc: Global, line: &str, names: &SiteNames) -> Result<(u32, Entry), EntryError>
    ensures value { Gives (λ x. (x.0, x.1)) result (entry_read (names_view names.now) line.now) }
    ensures found { (s : PlainSite) → names_view names.now ≡ names_of s → IfOk result (λ x. IsLineOf s line.now x.0 x.1) }
    ensures only { (s : PlainSite) (k : ℕ) (e : Entry) → names_view names.now ≡ names_of s → HasAllNames s → AreTexts (names_of s) → IsEntryOf s k e → line.now ≡ entry_line s k e → Gives {Y = ℕ × Entry} (λ x. (x.0, x.1)) result (Some (k, untold e)) }
{
    read_line(alloc, line, names)
}

#[tactic(auto, unfolding(crate::specs::EntryReading::entry_read))]
fn read_line(alloc: Global, line: &str, names: &SiteNames) -> Result<(u32, Entry), EntryError>
    ensures { Gives (λ x. (x.0, x.1)) result (entry_read (names_view names.now) line.now) }
{
    let (told, rest) = read_told(alloc, line.as_bytes(), names)?;
    if rest != b"\n".as_slice() {
        return Err(EntryError::BadLine);
    }
    Ok(told)
}

/// The checkable and the entry that a line of version two is of.
///
/// `BadLine` if the line is of no entry of the site, and `OutOfMemory` if there is no memory for the
/// entry.
pub fn read_entry_two(
    alloc: Global,
    line: &str,
    names: &SiteNames,
) -> Result<(u32, Entry), EntryError>
    ensures value { Gives (λ x. (x.0, x.1)) result (entry_two_read (names_view names.now) line.now) }
    ensures found { (s : PlainSite) → names_view names.now ≡ names_of s → IfOk result (λ x. IsLineTwoOf s line.now x.0 x.1) }
    ensures only { (s : PlainSite) (k : ℕ) (e : Entry) → names_view names.now ≡ names_of s → HasAllNames s → AreTexts (names_of s) → IsEntryOf s k e → line.now ≡ entry_line_two s k e → Gives {Y = ℕ × Entry} (λ x. (x.0, x.1)) result (Some (k, e)) }
{
    read_line_two(alloc, line, names)
}

#[tactic(auto, unfolding(crate::specs::EntryReading::entry_two_read))]
fn read_line_two(alloc: Global, line: &str, names: &SiteNames) -> Result<(u32, Entry), EntryError>
    ensures { Gives (λ x. (x.0, x.1)) result (entry_two_read (names_view names.now) line.now) }
{
    let ((checkable, entry), rest) = read_told(alloc, line.as_bytes(), names)?;
    let rest = behind(rest, " | ")?;
    let (event, rest) = read_texts(alloc, rest, entry.event)?;
    if rest != b"\n".as_slice() {
        return Err(EntryError::BadLine);
    }
    Ok((checkable, Entry { event, ..entry }))
}

/// The checkable and the entry of a line, up to its decisions.
#[tactic(auto, unfolding(crate::specs::EntryReading::entry_at))]
fn read_told<'a>(
    alloc: Global,
    bytes: &'a [u8],
    names: &SiteNames,
) -> Result<((u32, Entry), &'a [u8]), EntryError>
    ensures { Gives (λ x. (x.0, x.1.now)) result (entry_at (names_view names.now) bytes.now) }
{
    let (head, rest) = match read_head(alloc, bytes, names) {
        Ok(told) => told,
        Err(error) => return Err(error),
    };
    let (effect, rest) = read_effect(alloc, rest)?;
    let rest = behind(rest, " | ")?;
    let (sights, rest) = read_sights(alloc, rest, names)?;
    let rest = behind(rest, " | ")?;
    let (decisions, rest) = read_decisions(alloc, rest, names)?;
    let entry = Entry {
        caller: head.caller,
        number: head.number,
        moment: head.moment,
        event: effect.event,
        taken: effect.taken,
        state: effect.state,
        hard: effect.hard,
        attempt: effect.attempt,
        sights,
        decisions,
    };
    Ok(((head.checkable, entry), rest))
}

/// An event with the texts that a line of version two tells of it.
fn read_texts<'a>(
    alloc: Global,
    bytes: &'a [u8],
    event: Event,
) -> Result<(Event, &'a [u8]), EntryError>
    ensures { Gives (λ x. (x.0, x.1.now)) result (told_at event bytes.now) }
{
    match event {
        Event::Result {
            status,
            passive,
            ..
        } => {
            let (output, rest) = read_text(alloc, bytes)?;
            let rest = behind(rest, " ")?;
            let (perf, rest) = read_text(alloc, rest)?;
            let event = Event::Result {
                status,
                passive,
                output,
                perf,
            };
            Ok((event, rest))
        }
        event => {
            let rest = behind(bytes, "-")?;
            Ok((event, rest))
        }
    }
}
