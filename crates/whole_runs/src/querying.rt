// The answer to a query once the turns of a script are over.
ghost use Rattle.std.specs.Prelude.{◌≡◌, ◌<◌, ◌≤◌, ◌-◌, ◌^◌, length, All, IfOk, MatchOption};
ghost use Rattle.depend_graph.specs.Cycles.{IsOnCycle};
ghost use Rattle.site_model.specs.PlainSite.{site_view};
ghost use Rattle.site_model.specs.Sound.{IsSound};
ghost use Rattle.time_range.specs.Zone.{IsBadFile};
ghost use Rattle.site_run.specs.Callers.{AreCallers};
ghost use Rattle.whole_runs.specs.Queried.{AnswersQuery};

use crate::muted::Muted;
use run_text::Style;
use site_base::{OutOfMemory, Row, Text};
use site_edge::Turn;
use site_model::Site;
use site_query::{Query, answer};
use site_run::{NoFeed, ScriptWorld, Status, Workers, drive_part};
use std::alloc::Global;
use turn_engine::Engine;

/// What a query is answered over the entries that the turns of a script leave, whose events these workers take, at the last turn's moment;
/// `None` if there are more turns than the limit. No order of a check is started.
///
/// The site is one that an engine can be made of, the workers are 1 to 64, and the limit is at most 2^40.
///
/// # Errors
///
/// `OutOfMemory` if there is too little memory for the run or for the answer.
pub fn query_turns<C: Workers>(
    alloc: Global,
    workers: &C,
    site: Site,
    turns: Row<Turn>,
    query: &Query,
    limit: u64,
) -> Result<Option<Text>, OutOfMemory>
    requires callers { AreCallers (C.callers workers.now) }
    requires apt { C.apt workers.now }
    requires sound { IsSound (site_view site) }
    requires few { length (site_view site).checkables < 2 ^ 32 - 1 }
    requires free { All (λ d. IsOnCycle (site_view site) d → ⊥) (site_view site).depends }
    requires zone { MatchOption (site_view site).zone (Unit {0}) (λ bytes. IsBadFile bytes → ⊥) }
    requires limit { limit ≤ 2 ^ 40 }
    ensures { IfOk result (AnswersQuery (C.callers workers.now) limit (site_view site) turns query.now) }
{
    let mut engine = Engine::new(alloc, site)?;
    let mut world = ScriptWorld::new(turns);
    let mut feed = NoFeed::new(alloc);
    let status = drive_part(
        alloc,
        &mut engine,
        &mut world,
        &mut Muted,
        &mut feed,
        workers,
        Style::One,
        limit,
    );
    match status {
        Status::Done => {
            let text = answer(alloc, engine.site(), engine.books(), engine.moment(), query)?;
            Ok(Some(text))
        }
        Status::TurnsSpent => Ok(None),
        // A script's world and dropped output never fail.
        _ => Err(OutOfMemory),
    }
}
