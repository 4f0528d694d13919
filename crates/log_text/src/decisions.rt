// Reading decisions.
ghost use Rattle.std.specs.Prelude.{◌≡◌, length};
ghost use Rattle.site_text.specs.Entries.{note_text};
ghost use Rattle.log_text.specs.EntryReading.{decision_at, kind_at};
ghost use Rattle.log_text.specs.Fronts.{list_at, parts_within, spelled_at, Gives};
ghost use Rattle.log_text.specs.SiteNames.{names_view};

use crate::fields::{behind, read_name, strip};
use crate::outcomes::read_outcome;
use crate::{EntryError, SiteNames};
use site_base::Row;
use site_model::{Decision, NoteKind};
use site_text::kind_name;
use std::alloc::Global;

const KINDS: [NoteKind; 9] = [
    NoteKind::Problem,
    NoteKind::Recovery,
    NoteKind::Acknowledgement,
    NoteKind::Custom,
    NoteKind::DowntimeStart,
    NoteKind::DowntimeEnd,
    NoteKind::DowntimeRemoved,
    NoteKind::FlappingStart,
    NoteKind::FlappingEnd,
];

/// What was decided.
pub(crate) fn read_decisions<'a>(
    alloc: Global,
    bytes: &'a [u8],
    names: &SiteNames,
) -> Result<(Row<Decision>, &'a [u8]), EntryError>
    ensures { Gives (λ x. (x.0, x.1.now)) result (list_at (decision_at (names_view names.now)) bytes.now) }
{
    match bytes.strip_prefix(b"-") {
        Some(rest) => Ok((Row::new(alloc), rest)),
        None => read_each_decision(alloc, bytes, names),
    }
}

/// One decision behind another, of which each takes a byte at least.
fn read_each_decision<'a>(
    alloc: Global,
    bytes: &'a [u8],
    names: &SiteNames,
) -> Result<(Row<Decision>, &'a [u8]), EntryError>
    ensures { Gives (λ x. (x.0, x.1.now)) result (parts_within (length bytes.now) (decision_at (names_view names.now)) bytes.now) }
{
    let mut decisions = Row::new(alloc);
    let mut rest = bytes;
    for _ in 0..bytes.len() {
        let (decision, after) = read_decision(alloc, rest, names)?;
        decisions.push(decision)?;
        match strip(after, ", ") {
            Some(next) => rest = next,
            None => return Ok((decisions, after)),
        }
    }
    Err(EntryError::BadLine)
}

#[tactic(auto, unfolding(crate::specs::EntryReading::decision_at))]
fn read_decision<'a>(
    alloc: Global,
    bytes: &'a [u8],
    names: &SiteNames,
) -> Result<(Decision, &'a [u8]), EntryError>
    ensures { Gives (λ x. (x.0, x.1.now)) result (decision_at (names_view names.now) bytes.now) }
{
    let (notification, rest) = read_name(alloc, bytes, &names.notifies)?;
    let rest = behind(rest, " ")?;
    let (kind, rest) = read_kind(rest)?;
    let rest = behind(rest, " ")?;
    let (outcome, rest) = read_outcome(alloc, rest, names)?;
    let decision = Decision {
        notification,
        kind,
        outcome,
    };
    Ok((decision, rest))
}

#[tactic(auto, unfolding(crate::specs::EntryReading::kind_at))]
fn read_kind(bytes: &[u8]) -> Result<(NoteKind, &[u8]), EntryError>
    ensures { Gives (λ x. (x.0, x.1.now)) result (kind_at bytes.now) }
{
    read_kind_among(&KINDS, bytes)
}

/// The first kind of these whose name stands there.
fn read_kind_among<'a>(
    kinds: &[NoteKind],
    bytes: &'a [u8],
) -> Result<(NoteKind, &'a [u8]), EntryError>
    ensures { Gives (λ x. (x.0, x.1.now)) result (spelled_at note_text kinds.now bytes.now) }
{
    for kind in kinds {
        if let Some(rest) = bytes.strip_prefix(kind_name(*kind).as_bytes()) {
            return Ok((*kind, rest));
        }
    }
    Err(EntryError::BadLine)
}
