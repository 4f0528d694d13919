// The turn that a block of a log tells.
ghost use Rattle.std.specs.Prelude.{◌≡◌, ◌<◌, ◌≤◌, All, length, Some, IfOk, IfSome};
ghost use Rattle.site_model.specs.PlainSite.{site_view};
ghost use Rattle.site_audit.specs.Commands.{refused_with};
ghost use Rattle.site_audit.specs.Telling.{after_order, after_orders};
ghost use Rattle.site_audit.specs.Told.{nothing_heard as none_heard, orders_after, turn_in, turn_told, IsOf};
ghost use Rattle.site_audit.specs.Tracks.{taken_in};

use crate::block::{Block, OrderLine, RefusedLine};
use crate::filling::fill;
use crate::hearing::{Heard, hear_all};
use crate::picking::{pick_lines, pick_reports};
use crate::refused::{closed_to_name, host_to_name};
use crate::telling::{Open, Said};
use crate::tracks::take_all;
use site_base::{Moment, OutOfMemory, Row, Text};
use site_edge::Turn;
use site_model::Site;
use std::alloc::Global;

/// What lines that are refused name.
#[derive(Drop)]
pub(crate) struct Named {
    /// The first host that a line can name.
    pub(crate) host: Option<Text>,
    /// The first checkable that takes no passive results and that a line can name.
    pub(crate) closed: Option<Text>,
}

/// What lines that are refused name of a site.
pub(crate) fn named_of(site: &Site) -> Result<Named, OutOfMemory>
    ensures { IfOk result (IsOf (site_view site.now)) }
{
    let checks = site.checkables.as_slice();
    Ok(Named {
        host: host_to_name(checks)?,
        closed: closed_to_name(checks)?,
    })
}

/// The turn that a block of so many callers tells, if each checkable has this order. `None` if it tells none; else the orders are
/// those after it.
pub(crate) fn tell(
    alloc: Global,
    callers: u32,
    site: &Site,
    named: &Named,
    orders: &mut Vec<Option<Open>>,
    block: Block,
) -> Result<Option<Turn>, OutOfMemory>
    requires callers { callers ≤ 64 }
    requires named { IsOf (site_view site.now) named.now }
    ensures turn { IfOk result (λ t. t ≡ turn_told callers (site_view site.now) orders.old.items block) }
    ensures orders { IfOk result (λ t. IfSome t (λ _. orders.new.items ≡ orders_after orders.old.items block)) }
{
    let Block {
        moment,
        lines,
        reports,
        entries,
        orders: ordered,
    } = block;
    let checks = site.checkables.as_slice();
    let Some(heard) = hear_all(
        alloc,
        callers,
        checks,
        orders,
        entries.into_vec(),
        nothing_heard(alloc),
    )?
    else {
        return Ok(None);
    };
    add_orders(orders, ordered.as_slice());
    turn_of(
        alloc,
        named,
        moment,
        lines.as_slice(),
        reports.as_slice(),
        heard,
    )
}

fn nothing_heard(alloc: Global) -> Heard
    ensures { result ≡ none_heard }
{
    Heard {
        said: Row::new(alloc),
        spots: Row::new(alloc),
    }
}

/// The orders of a block are those of their checkables.
fn add_orders(orders: &mut Vec<Option<Open>>, ordered: &[OrderLine])
    ensures { orders.new.items ≡ after_orders orders.old.items ordered.now }
{
    for order in ordered {
        add_order(orders, order);
    }
}

fn add_order(orders: &mut Vec<Option<Open>>, order: &OrderLine)
    ensures { orders.new.items ≡ after_order orders.old.items order.now }
{
    if let Some(place) = orders.get_mut(order.checkable as usize) {
        *place = Some(Open {
            number: order.number,
            missing: order.missing,
        });
    }
}

/// The turn of what was heard, and of what is refused.
fn turn_of(
    alloc: Global,
    named: &Named,
    moment: Moment,
    lines: &[RefusedLine],
    reports: &[u64],
    heard: Heard,
) -> Result<Option<Turn>, OutOfMemory>
    requires { All (λ x. x.thing < length heard.said) heard.spots }
    ensures { IfOk result (λ t. t ≡ turn_in (refused_with named.now.host named.now.closed) moment lines.now reports.now heard.said (taken_in (length heard.said) heard.spots)) }
{
    let Heard { said, spots } = heard;
    match take_all(alloc, said.len(), spots)? {
        Some(order) => turn_from(
            alloc,
            named,
            moment,
            lines,
            reports,
            said.as_slice(),
            order.as_slice(),
        ),
        None => Ok(None),
    }
}

/// The turn of what is said in this order.
fn turn_from(
    alloc: Global,
    named: &Named,
    moment: Moment,
    lines: &[RefusedLine],
    reports: &[u64],
    said: &[Said],
    order: &[usize],
) -> Result<Option<Turn>, OutOfMemory>
    ensures { IfOk result (λ t. t ≡ turn_in (refused_with named.now.host named.now.closed) moment lines.now reports.now said.now (Some order.now)) }
{
    let told = pick_lines(alloc, said, order)?;
    let reports = pick_reports(alloc, said, order, reports)?;
    match fill(alloc, &named.host, &named.closed, lines, told.as_slice())? {
        Some(lines) => Ok(Some(Turn {
            moment,
            reports,
            lines,
        })),
        None => Ok(None),
    }
}
