// The lines of a turn, made by several threads.
ghost use Rattle.std.specs.Prelude.{◌≡◌, ◌≤◌, IfOk};
ghost use Rattle.site_model.specs.PlainSite.{site_view};
ghost use Rattle.site_model.specs.Sound.{IsSound};
ghost use Rattle.run_meaning.specs.Runs.{TurnLog};
ghost use Rattle.run_text.specs.LogText.{turn_lines as lines_of_turn};
ghost use Rattle.turn_engine.specs.Stages.{Tells};
ghost use Rattle.engine_log.specs.OnSite.{IsTurnOf};

use crate::parts::add_by_parts;
use crate::turn_text::{add_orders, add_refusals};
use log_text::print_turn;
use run_text::Style;
use site_base::{OutOfMemory, Row, Texts};
use site_model::Site;
use std::alloc::Global;
use std::thread::Threads;
use turn_engine::TurnOut;

/// The lines that [`crate::turn_lines`] gives. So many threads at most make those of the entries, each for a part of the checkables; if few
/// checkables have entries no thread is made.
///
/// # Errors
///
/// `OutOfMemory` if there is too little memory for a line.
pub fn turn_lines_by_many<R: Threads + Sync>(
    rt: &R,
    alloc: Global,
    style: Style,
    site: &Site,
    turn: &TurnOut,
    threads: u32,
) -> Result<Texts, OutOfMemory>
    requires sound { IsSound (site_view site.now) }
    requires turn { IsTurnOf (site_view site.now) turn.now }
    requires threads { 1 ≤ threads }
    ensures { (l : TurnLog) → Tells turn.now l → IfOk result (λ lines. lines ≡ lines_of_turn style (site_view site.now) l) }
{
    let mut lines = Row::new(alloc);
    lines.push(print_turn(alloc, turn.number, turn.moment)?)?;
    add_refusals(alloc, turn.refusals.as_slice(), &mut lines)?;
    add_by_parts(
        rt,
        alloc,
        style,
        site,
        turn.segments.as_slice(),
        threads,
        &mut lines,
    )?;
    add_orders(alloc, style, site, turn.orders.as_slice(), &mut lines)?;
    Ok(lines)
}
