// One turn of the engine, with its feed.
ghost use Rattle.std.specs.Prelude.{◌≡◌, ◌<◌, ◌++◌, ◌^◌, List, false, IfOk, OnOk};
ghost use Rattle.site_model.specs.PlainSite.{site_view};
ghost use Rattle.site_model.specs.Sound.{IsSound};
ghost use Rattle.run_meaning.specs.Turns.{Begun};
ghost use Rattle.turn_engine.specs.Stages.{stage_from};
ghost use Rattle.site_run.specs.Callers.{AreCallers, IsTaken};
ghost use Rattle.site_run.specs.Courses.{course_of};
ghost use Rattle.site_run.specs.Feeds.{feed_after};

use crate::feed::Feed;
use crate::starting::started_of;
use crate::workers::Workers;
use run_text::Style;
use site_base::{Blob, OutOfMemory, Row, Texts};
use site_edge::{Order, Turn};
use std::alloc::Global;
use turn_engine::{Engine, later_of};

/// What is told of a turn.
#[derive(Drop)]
pub(crate) struct Taken {
    /// Its lines in the log.
    pub(crate) lines: Texts,
    /// Its orders that are started.
    pub(crate) orders: Vec<Order>,
}

/// Takes a turn, with the lines of the feed before its own.
pub(crate) fn take<F: Feed, C: Workers>(
    alloc: Global,
    engine: &mut Engine,
    feed: &mut F,
    workers: &C,
    style: Style,
    turn: Turn,
) -> Result<Taken, OutOfMemory>
    requires callers { AreCallers (C.callers workers.now) }
    requires apt { C.apt workers.now }
    requires fresh { engine.old.spent ≡ false }
    requires few { engine.old.run.turns < 2 ^ 40 }
    requires sound { IsSound (site_view engine.old.run.site) }
    requires made { F.made_for feed.old (site_view engine.old.run.site) }
    ensures taken { (begun : List Begun) (first : F) → feed.old ≡ feed_after F.after first begun →
        IfOk result (λ taken. IsTaken (C.callers workers.now) (course_of engine.old.run begun style F.gives F.after first) turn taken.lines taken.orders.items (stage_from engine.old.run begun engine.new.run)) }
    ensures feed { OnOk result (feed.new ≡ F.after feed.old engine.old.run.histories engine.new.run.moment) }
    ensures made { OnOk result (F.made_for feed.new (site_view engine.old.run.site)) }
    ensures site { OnOk result (engine.new.run.site ≡ engine.old.run.site) }
    ensures zone { OnOk result (engine.new.run.zone ≡ engine.old.run.zone) }
    ensures fresh { OnOk result (engine.new.spent ≡ false) }
{
    let moment = later_of(engine.moment(), turn.moment);
    let fed = feed.lines(engine.books(), moment)?;
    let turn = with_lines(fed, turn)?;
    let out = workers.turn(engine, &turn)?;
    let lines = workers.tell(alloc, style, engine.site(), &out)?;
    let orders = started_of(alloc, out.orders)?;
    Ok(Taken { lines, orders })
}

/// A turn with these lines before its own.
fn with_lines(mut before: Vec<Blob>, turn: Turn) -> Result<Turn, OutOfMemory>
    ensures { IfOk result (λ t. t ≡ record turn { lines = before.items ++ turn.lines }) }
{
    if before.is_empty() {
        return Ok(turn);
    }
    before.append(&mut turn.lines.into_vec())?;
    Ok(Turn {
        moment: turn.moment,
        reports: turn.reports,
        lines: Row::from(before),
    })
}
