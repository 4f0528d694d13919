// The turns that a log tells.
ghost use Rattle.std.specs.Prelude.{◌≡◌, ◌<◌, ◌≤◌, length, map, replicate, None, IfOk, IfSome};
ghost use Rattle.std.specs.Option.{option_map};
ghost use Rattle.log_text.specs.SiteNames.{names_of, names_view};
ghost use Rattle.site_model.specs.PlainSite.{full_names, site_view};
ghost use Rattle.site_model.specs.Sound.{IsSound};
ghost use Rattle.site_audit.specs.Blocks.{blocks_of, lines_of};
ghost use Rattle.site_audit.specs.BlockReading.{block_read};
ghost use Rattle.site_audit.specs.ByCallers.{round_of, turn_of, AreToldIn, IsToldIn};
ghost use Rattle.site_audit.specs.Told.{block_told, first_turns as turns_first, no_orders as none_ordered, orders_behind, turns_from, IsOf};

use crate::block::{Block, read_block};
use crate::blocks::cut_block;
use crate::rounds::{ToldTurn, tell_turn};
use crate::telling::Open;
use crate::told::{Named, named_of};
use log_text::{EntryError, SiteNames};
use run_text::Style;
use site_base::OutOfMemory;
use site_model::Site;
use std::alloc::Global;

/// The turns that the blocks of a log of so many callers tell, from the first block on up to the one that tells none. The line `log 2` isn't
/// in the log.
///
/// It takes a time that grows with the log, times a logarithm.
pub(crate) fn first_turns(
    alloc: Global,
    callers: u32,
    site: &Site,
    style: Style,
    log: &[u8],
) -> Result<Vec<ToldTurn>, OutOfMemory>
    requires callers { callers ≤ 64 }
    requires sound { IsSound (site_view site.now) }
    ensures turns { IfOk result (λ turns. map turn_of turns.items ≡ turns_first callers (site_view site.now) style (blocks_of (lines_of log.now))) }
    ensures rounds { 2 ≤ callers → IfOk result (λ turns. AreToldIn style (names_of (site_view site.now)) (map round_of turns.items) (blocks_of (lines_of log.now))) }
{
    let names = SiteNames::of(alloc, site)?;
    let named = named_of(site)?;
    let mut orders = no_orders(alloc, site)?;
    tell_blocks(
        alloc,
        callers,
        site,
        style,
        &names,
        &named,
        &mut orders,
        log,
    )
}

/// The turns that the blocks of a log tell, if each checkable has this order.
fn tell_blocks(
    alloc: Global,
    callers: u32,
    site: &Site,
    style: Style,
    names: &SiteNames,
    named: &Named,
    orders: &mut Vec<Option<Open>>,
    log: &[u8],
) -> Result<Vec<ToldTurn>, OutOfMemory>
    requires callers { callers ≤ 64 }
    requires names { names_view names.now ≡ names_of (site_view site.now) }
    requires full { site.now.names ≡ full_names (site_view site.now) }
    requires named { IsOf (site_view site.now) named.now }
    ensures turns { IfOk result (λ turns. map turn_of turns.items ≡ turns_from callers (site_view site.now) style orders.old.items (blocks_of (lines_of log.now))) }
    ensures rounds { 2 ≤ callers → IfOk result (λ turns. AreToldIn style (names_of (site_view site.now)) (map round_of turns.items) (blocks_of (lines_of log.now))) }
{
    let mut turns = Vec::new(alloc);
    let mut rest = log;
    while !rest.is_empty() {
        let (block, behind) = cut_block(rest);
        let told = tell_block(alloc, callers, site, style, names, named, orders, block)?;
        let Some(turn) = told else {
            return Ok(turns);
        };
        turns.push(turn)?;
        rest = behind;
    }
    Ok(turns)
}

/// No checkable has an order.
fn no_orders(alloc: Global, site: &Site) -> Result<Vec<Option<Open>>, OutOfMemory>
    ensures { IfOk result (λ orders. orders.items ≡ none_ordered (site_view site.now)) }
{
    let orders = empty_orders(alloc, site.checkables.len())?;
    Ok(orders)
}

fn empty_orders(alloc: Global, count: usize) -> Result<Vec<Option<Open>>, OutOfMemory>
    ensures { IfOk result (λ orders. orders.items ≡ replicate count None) }
{
    Ok(vec![in alloc; None; count]?)
}

/// The turn that a block tells, if each checkable has this order. `None` if it tells none; else the orders are those after it.
fn tell_block(
    alloc: Global,
    callers: u32,
    site: &Site,
    style: Style,
    names: &SiteNames,
    named: &Named,
    orders: &mut Vec<Option<Open>>,
    bytes: &[u8],
) -> Result<Option<ToldTurn>, OutOfMemory>
    requires callers { callers ≤ 64 }
    requires some { 0 < length bytes.now }
    requires names { names_view names.now ≡ names_of (site_view site.now) }
    requires full { site.now.names ≡ full_names (site_view site.now) }
    requires named { IsOf (site_view site.now) named.now }
    ensures turn { IfOk result (λ t. option_map turn_of t ≡ block_told callers (site_view site.now) style orders.old.items (lines_of bytes.now)) }
    ensures round { 2 ≤ callers → IfOk result (λ t. IfSome t (λ t. IsToldIn style (names_of (site_view site.now)) (lines_of bytes.now) t.round.items)) }
    ensures orders { IfOk result (λ t. IfSome t (λ _. orders.new.items ≡ orders_behind (site_view site.now) style orders.old.items (lines_of bytes.now))) }
{
    match read(alloc, style, site, names, bytes)? {
        Some(block) => tell_turn(alloc, callers, site, named, orders, block),
        None => Ok(None),
    }
}

/// What a block tells; `None` if it is none.
fn read(
    alloc: Global,
    style: Style,
    site: &Site,
    names: &SiteNames,
    bytes: &[u8],
) -> Result<Option<Block>, OutOfMemory>
    requires some { 0 < length bytes.now }
    requires names { site.now.names ≡ (names_view names.now).checkables }
    ensures { IfOk result (λ b. b ≡ block_read style (names_view names.now) (lines_of bytes.now)) }
{
    match read_block(alloc, style, names, &site.names, bytes) {
        Ok(block) => Ok(Some(block)),
        Err(EntryError::BadLine) => Ok(None),
        Err(EntryError::OutOfMemory) => Err(OutOfMemory),
    }
}
