// What all entries of a block tell.
ghost use Rattle.std.specs.Prelude.{◌≡◌, ◌<◌, ◌≤◌, [], get_or, map, None, IfOk, IfSome, OnOk};
ghost use Rattle.site_model.specs.PlainSite.{check_view};
ghost use Rattle.site_audit.specs.Hearing.{entries_heard, hearing, one_heard};
ghost use Rattle.site_audit.specs.Telling.{after_entries, after_entry, is_report as is_report_of};

use crate::block::EntryLine;
use crate::spots::add_spots;
use crate::telling::{Open, Said, say};
use crate::tracks::Spot;
use site_base::{OutOfMemory, Row};
use site_model::{CheckSpec, Event};
use std::alloc::Global;

/// What entries of a block tell, and where they stand on tracks.
#[derive(Drop)]
pub(crate) struct Heard {
    pub(crate) said: Row<Said>,
    pub(crate) spots: Row<Spot>,
}

/// What these entries of so many callers tell after what others told, if each checkable has this order. `None` if one tells nothing
/// that could have been; else the orders are those after all entries.
pub(crate) fn hear_all(
    alloc: Global,
    callers: u32,
    checks: &[CheckSpec],
    orders: &mut Vec<Option<Open>>,
    entries: Vec<EntryLine>,
    heard: Heard,
) -> Result<Option<Heard>, OutOfMemory>
    requires { callers ≤ 64 }
    ensures heard { IfOk result (λ h. h ≡ entries_heard callers (map (λ c. c.name) (map check_view checks.now)) orders.old.items entries.items heard) }
    ensures orders { IfOk result (λ h. IfSome h (λ _. orders.new.items ≡ after_entries orders.old.items entries.items)) }
{
    let mut all = heard;
    for entry in entries {
        let Some(more) = hear(alloc, callers, checks, orders, entry, all)? else {
            return Ok(None);
        };
        all = more;
    }
    Ok(Some(all))
}

/// The same with one entry, after which its checkable may have no order.
fn hear(
    alloc: Global,
    callers: u32,
    checks: &[CheckSpec],
    orders: &mut Vec<Option<Open>>,
    entry: EntryLine,
    heard: Heard,
) -> Result<Option<Heard>, OutOfMemory>
    requires { callers ≤ 64 }
    ensures heard { IfOk result (λ h. h ≡ one_heard callers (map (λ c. c.name) (map check_view checks.now)) orders.old.items heard entry) }
    ensures orders { IfOk result (λ h. IfSome h (λ _. orders.new.items ≡ after_entry orders.old.items entry)) }
{
    if entry.entry.caller >= callers {
        return Ok(None);
    }
    let name = name_at(checks, entry.checkable);
    let said = say(
        alloc,
        name,
        order_at(orders, entry.checkable),
        &entry.entry.event,
    )?;
    close(orders, &entry);
    match said {
        Some(said) => Ok(Some(add(heard, &entry, said)?)),
        None => Ok(None),
    }
}

/// The name of the checkable at a place; the empty one if there is none.
#[tactic(auto, using(crate::proofs::HearLaws::name_there, crate::proofs::HearLaws::no_name_there))]
fn name_at(checks: &[CheckSpec], checkable: u32) -> &str
    ensures { result.now ≡ get_or (map (λ c. c.name) (map check_view checks.now)) checkable [] }
{
    let place = checkable as usize;
    if place < checks.len() {
        checks[place].name.as_str()
    } else {
        ""
    }
}

/// The order of the checkable at a place.
fn order_at(orders: &[Option<Open>], checkable: u32) -> Option<Open>
    ensures { result ≡ get_or orders.now checkable None }
{
    match orders.get(checkable as usize) {
        Some(order) => *order,
        None => None,
    }
}

/// The order of a checkable has its result, if the entry is one.
fn close(orders: &mut Vec<Option<Open>>, entry: &EntryLine)
    ensures { orders.new.items ≡ after_entry orders.old.items entry.now }
{
    if !is_report(&entry.entry.event) {
        return;
    }
    if let Some(order) = orders.get_mut(entry.checkable as usize) {
        *order = None;
    }
}

fn is_report(event: &Event) -> bool
    ensures { result ≡ is_report_of event.now }
{
    matches!(event, Event::Result { passive: false, .. })
}

/// With what one entry says, whose caller is one of 64.
fn add(heard: Heard, entry: &EntryLine, said: Said) -> Result<Heard, OutOfMemory>
    requires { entry.now.entry.caller < 64 }
    ensures { IfOk result (λ h. h ≡ hearing heard entry.now said) }
{
    let mut heard = heard;
    add_spots(heard.said.len(), entry, &said, &mut heard.spots)?;
    heard.said.push(said)?;
    Ok(heard)
}
