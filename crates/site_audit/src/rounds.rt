// What a block tells of its turn, with the round of its callers.
ghost use Rattle.std.specs.Prelude.{◌≡◌, ◌≤◌, map, IfOk, IfSome};
ghost use Rattle.std.specs.Option.{option_map};
ghost use Rattle.site_model.specs.PlainSite.{site_view};
ghost use Rattle.site_audit.specs.ByCallers.{told_by, turn_of};
ghost use Rattle.site_audit.specs.Told.{orders_after, turn_told, IsOf};

use crate::block::{Block, EntryLine};
use crate::telling::Open;
use crate::told::{Named, tell};
use round_check::Told;
use site_base::{OutOfMemory, Row};
use site_edge::Turn;
use site_model::Site;
use std::alloc::Global;

/// A turn that a log tells, with what it tells of the entries of its round. Of one caller nothing has to be told: it has one round.
#[derive(Drop)]
pub(crate) struct ToldTurn {
    pub(crate) turn: Turn,
    pub(crate) round: Vec<Told>,
}

/// The turn that a block of so many callers tells, if each checkable has this order. `None` if it tells none; else the orders are
/// those after it.
pub(crate) fn tell_turn(
    alloc: Global,
    callers: u32,
    site: &Site,
    named: &Named,
    orders: &mut Vec<Option<Open>>,
    block: Block,
) -> Result<Option<ToldTurn>, OutOfMemory>
    requires callers { callers ≤ 64 }
    requires named { IsOf (site_view site.now) named.now }
    ensures turn { IfOk result (λ t. option_map turn_of t ≡ turn_told callers (site_view site.now) orders.old.items block) }
    ensures round { 2 ≤ callers → IfOk result (λ t. IfSome t (λ t. t.round.items ≡ map told_by block.entries)) }
    ensures orders { IfOk result (λ t. IfSome t (λ _. orders.new.items ≡ orders_after orders.old.items block)) }
{
    let round = round_of(alloc, callers, block.entries.as_slice())?;
    match tell(alloc, callers, site, named, orders, block)? {
        Some(turn) => Ok(Some(ToldTurn { turn, round })),
        None => Ok(None),
    }
}

/// What entries of several callers tell of their round, and nothing of one caller.
fn round_of(alloc: Global, callers: u32, entries: &[EntryLine]) -> Result<Vec<Told>, OutOfMemory>
    ensures { 2 ≤ callers → IfOk result (λ round. round.items ≡ map told_by entries.now) }
{
    if callers == 1 {
        return Ok(Vec::new(alloc));
    }
    all_told(alloc, entries)
}

fn all_told(alloc: Global, entries: &[EntryLine]) -> Result<Vec<Told>, OutOfMemory>
    ensures { IfOk result (λ round. round.items ≡ map told_by entries.now) }
{
    let mut round = Vec::with_capacity(alloc, entries.len())?;
    for entry in entries {
        round.push(one_told(alloc, entry)?)?;
    }
    Ok(round)
}

fn one_told(alloc: Global, line: &EntryLine) -> Result<Told, OutOfMemory>
    ensures { IfOk result (λ told. told ≡ told_by line.now) }
{
    Ok(Told {
        checkable: line.checkable,
        caller: line.entry.caller,
        sights: Row::from(Vec::from_slice(alloc, line.entry.sights.as_slice())?),
    })
}
