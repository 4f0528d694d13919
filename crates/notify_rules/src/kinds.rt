// Which kinds of notifications an entry gives.
ghost use Rattle.std.specs.Prelude.{◌≡◌, ◌++◌, IfOk, OnOk, OnErr};
ghost use Rattle.site_model.specs.declared.entry.Entry.{Entry};
ghost use Rattle.run_meaning.specs.Decisions.{kinds_of, kind_where, is_tick, tells_ack};
ghost use Rattle.notify_rules.specs.Case.{gives_kinds};

use crate::asked::{is_hard, is_result};
use site_base::{OutOfMemory, Row};
use site_model::{Event, NoteKind, View};
use std::alloc::Global;

/// The kinds that an entry gives, by the views before and after it, in the order in which they are decided (Icinga 2
/// documentation, Object Types, "Notification", `types`).
pub(crate) fn kinds_of(
    alloc: Global,
    before: &View,
    after: &View,
    event: &Event,
    taken: bool,
) -> Result<Row<NoteKind>, OutOfMemory>
    ensures { (e : Entry) → e.event ≡ event.now → e.taken ≡ taken → IfOk result (λ kinds. kinds ≡ kinds_of before.now after.now e) }
{
    let checked = is_result(event);
    let hard = is_hard(after);
    let mut kinds = Row::new(alloc);
    add_where(
        &mut kinds,
        (checked || is_tick(event)) && hard,
        NoteKind::Problem,
    )?;
    add_where(
        &mut kinds,
        checked && is_hard(before) && !hard,
        NoteKind::Recovery,
    )?;
    add_where(
        &mut kinds,
        taken && tells_ack(event),
        NoteKind::Acknowledgement,
    )?;
    add_where(
        &mut kinds,
        checked && after.flapping && !before.flapping,
        NoteKind::FlappingStart,
    )?;
    add_where(
        &mut kinds,
        checked && before.flapping && !after.flapping,
        NoteKind::FlappingEnd,
    )?;
    Ok(kinds)
}

/// Whether an entry gives any kind.
pub(crate) fn gives_kinds(before: &View, after: &View, event: &Event, taken: bool) -> bool
    ensures { result ≡ gives_kinds before.now after.now event.now taken }
{
    let checked = is_result(event);
    let was = is_hard(before);
    let hard = is_hard(after);
    (checked || is_tick(event)) && hard
        || checked && (was && !hard)
        || taken && tells_ack(event)
        || checked && (after.flapping && !before.flapping)
        || checked && (before.flapping && !after.flapping)
}

/// Adds a kind where it is given.
fn add_where(kinds: &mut Row<NoteKind>, given: bool, kind: NoteKind) -> Result<(), OutOfMemory>
    ensures { OnOk result (kinds.new ≡ kinds.old ++ kind_where given kind) }
{
    if given {
        kinds.push(kind)?;
    }
    Ok(())
}

fn is_tick(event: &Event) -> bool
    ensures { result ≡ is_tick event.now }
{
    matches!(event, Event::Tick)
}

/// Whether it is an acknowledgement that is told.
fn tells_ack(event: &Event) -> bool
    ensures { result ≡ tells_ack event.now }
{
    matches!(event, Event::Ack { notify: true, .. })
}
