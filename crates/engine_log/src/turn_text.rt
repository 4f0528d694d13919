// The lines of a turn.
ghost use Rattle.std.specs.Prelude.{◌≡◌, ◌<◌, ◌++◌, length, map, All, IfOk, OnOk};
ghost use Rattle.site_model.specs.PlainSite.{site_view};
ghost use Rattle.site_model.specs.Sound.{IsSound};
ghost use Rattle.run_meaning.specs.Runs.{TurnLog};
ghost use Rattle.run_text.specs.LogText.{ordered_line, refusal_line, turn_lines as lines_of_turn};
ghost use Rattle.turn_deal.specs.Dealt.{refusal_of};
ghost use Rattle.turn_engine.specs.Orders.{order_as};
ghost use Rattle.turn_engine.specs.Stages.{Tells};
ghost use Rattle.engine_log.specs.OnSite.{IsTurnOf};

use crate::entries::add_segments;
use crate::refusals::print_refusal;
use log_text::{print_missing, print_order, print_order_two, print_turn};
use run_text::Style;
use site_base::{OutOfMemory, Row, Text, Texts};
use site_model::Site;
use std::alloc::Global;
use turn_deal::Refusal;
use turn_engine::{OrderOut, TurnOut};

/// The lines of a turn of the engine in a version of the log, each with its newline: its number and moment, what is refused, the
/// entries by checkable and number, and the orders by number. The site is sound, and the turn is one over it: what an engine of this
/// site gives.
///
/// It takes a time that grows with the length of these lines.
///
/// # Errors
///
/// `OutOfMemory` if there is too little memory for a line.
pub fn turn_lines(
    alloc: Global,
    style: Style,
    site: &Site,
    turn: &TurnOut,
) -> Result<Texts, OutOfMemory>
    requires sound { IsSound (site_view site.now) }
    requires turn { IsTurnOf (site_view site.now) turn.now }
    ensures { (l : TurnLog) → Tells turn.now l → IfOk result (λ lines. lines ≡ lines_of_turn style (site_view site.now) l) }
{
    let mut lines = Row::new(alloc);
    lines.push(print_turn(alloc, turn.number, turn.moment)?)?;
    add_refusals(alloc, turn.refusals.as_slice(), &mut lines)?;
    add_segments(alloc, style, site, turn.segments.as_slice(), &mut lines)?;
    add_orders(alloc, style, site, turn.orders.as_slice(), &mut lines)?;
    Ok(lines)
}

/// Adds the lines of what is refused.
pub(crate) fn add_refusals(
    alloc: Global,
    refusals: &[Refusal],
    lines: &mut Texts,
) -> Result<(), OutOfMemory>
    ensures { OnOk result (lines.new ≡ lines.old ++ map refusal_line (map refusal_of refusals.now)) }
{
    for refusal in refusals {
        lines.push(print_refusal(alloc, refusal)?)?;
    }
    Ok(())
}

/// Adds the lines of the orders.
pub(crate) fn add_orders(
    alloc: Global,
    style: Style,
    site: &Site,
    orders: &[OrderOut],
    lines: &mut Texts,
) -> Result<(), OutOfMemory>
    requires { All (λ o. o.checkable < length site.now.checkables) orders.now }
    ensures { OnOk result (lines.new ≡ lines.old ++ map (ordered_line style (site_view site.now)) (map order_as orders.now)) }
{
    for order in orders {
        lines.push(print_ordered(alloc, style, site, order)?)?;
    }
    Ok(())
}

/// The line of an order, with the macro that is missing for its command if one is.
fn print_ordered(
    alloc: Global,
    style: Style,
    site: &Site,
    order: &OrderOut,
) -> Result<Text, OutOfMemory>
    requires { order.now.checkable < length site.now.checkables }
    ensures { IfOk result (λ t. t ≡ ordered_line style (site_view site.now) (order_as order.now)) }
{
    match (&order.argv, style) {
        (Ok(_), Style::One) => print_order(alloc, order.number, order.checkable, site),
        (Ok(words), Style::Two) => print_order_two(
            alloc,
            order.number,
            order.checkable,
            words.as_slice(),
            site,
        ),
        (Err(name), _) => print_missing(alloc, order.number, order.checkable, name.as_str(), site),
    }
}
