// The state file of what the turns of a script leave.
ghost use Rattle.std.specs.Prelude.{◌≡◌, ◌<◌, ◌≤◌, ◌+◌, ◌-◌, ◌^◌, [], ◌∷◌, List, false, length, All, IfOk, OnOk, MatchOption};
ghost use Rattle.depend_graph.specs.Cycles.{IsOnCycle};
ghost use Rattle.run_meaning.specs.Runs.{no_entries as none_of, start};
ghost use Rattle.site_edge.specs.declared.turn.Turn.{Turn as OneTurn};
ghost use Rattle.site_model.specs.PlainSite.{site_view};
ghost use Rattle.site_model.specs.Sound.{IsSound};
ghost use Rattle.time_range.specs.Zone.{IsBadFile};
ghost use Rattle.turn_engine.specs.Ready.{IsZoneOf};
ghost use Rattle.turn_engine.specs.Stages.{Running, stage_of};
ghost use Rattle.site_run.specs.Callers.{AreCallers};
ghost use Rattle.kept_runs.specs.Keeping.{Keeps};
ghost use Rattle.kept_runs.specs.Kept.{AnswersKeep};

use crate::gathering::{gather, no_lines};
use site_base::{OutOfMemory, Row, Text};
use site_edge::Turn;
use site_keep::{SavedLines, save};
use site_model::Site;
use site_run::Workers;
use std::alloc::Global;
use turn_engine::Engine;

/// The state file of the entries that the turns of a script leave, whose events these workers take; `None` if there are more turns than
/// the limit. No order of a check is started.
///
/// The site is one that an engine can be made of, the workers are 1 to 64, and the limit is at most 2^40. Of the entries their lines alone
/// are held until the text is made.
///
/// # Errors
///
/// `OutOfMemory` if there is too little memory for the run, the lines of its entries or the text.
pub fn keep_turns<C: Workers>(
    alloc: Global,
    workers: &C,
    site: Site,
    turns: Row<Turn>,
    limit: u64,
) -> Result<Option<Text>, OutOfMemory>
    requires callers { AreCallers (C.callers workers.now) }
    requires apt { C.apt workers.now }
    requires sound { IsSound (site_view site) }
    requires few { length (site_view site).checkables < 2 ^ 32 - 1 }
    requires free { All (λ d. IsOnCycle (site_view site) d → ⊥) (site_view site).depends }
    requires zone { MatchOption (site_view site).zone (Unit {0}) (λ bytes. IsBadFile bytes → ⊥) }
    requires limit { limit ≤ 2 ^ 40 }
    ensures { IfOk result (AnswersKeep (C.callers workers.now) limit (site_view site) turns) }
{
    let mut engine = Engine::new(alloc, site)?;
    keep_by(alloc, workers, &mut engine, turns, limit)
}

/// The same by an engine that took no turn so far.
fn keep_by<C: Workers>(
    alloc: Global,
    workers: &C,
    engine: &mut Engine,
    turns: Row<Turn>,
    limit: u64,
) -> Result<Option<Text>, OutOfMemory>
    requires callers { AreCallers (C.callers workers.now) }
    requires apt { C.apt workers.now }
    requires fresh { engine.old.spent ≡ false }
    requires sound { IsSound (site_view engine.old.run.site) }
    requires few { length (site_view engine.old.run.site).checkables < 2 ^ 32 - 1 }
    requires zone { IsZoneOf (site_view engine.old.run.site).zone engine.old.run.zone }
    requires begin { stage_of engine.old.run [] ≡ start (site_view engine.old.run.site) (none_of (site_view engine.old.run.site)) }
    requires limit { limit ≤ 2 ^ 40 }
    ensures { IfOk result (AnswersKeep (C.callers workers.now) limit (site_view engine.old.run.site) turns) }
{
    if turns.len() as u64 > limit {
        return Ok(None);
    }
    let lines = take_turns(alloc, workers, engine, turns)?;
    let text = save(alloc, engine.site(), lines.as_slice())?;
    Ok(Some(text))
}

/// The lines of the entries of the turns that an engine takes which took none so far, by checkable.
fn take_turns<C: Workers>(
    alloc: Global,
    workers: &C,
    engine: &mut Engine,
    turns: Row<Turn>,
) -> Result<Vec<SavedLines>, OutOfMemory>
    requires callers { AreCallers (C.callers workers.now) }
    requires apt { C.apt workers.now }
    requires fresh { engine.old.spent ≡ false }
    requires sound { IsSound (site_view engine.old.run.site) }
    requires begin { stage_of engine.old.run [] ≡ start (site_view engine.old.run.site) (none_of (site_view engine.old.run.site)) }
    requires few { length turns ≤ 2 ^ 40 }
    ensures { IfOk result (λ lines. Keeps (C.callers workers.now) engine.old.run turns [] engine.new lines.items) }
{
    let mut lines = no_lines(alloc, engine.site())?;
    for turn in turns.into_vec() {
        take(alloc, workers, engine, &mut lines, turn)?;
    }
    Ok(lines)
}

/// Takes one turn more.
fn take<C: Workers>(
    alloc: Global,
    workers: &C,
    engine: &mut Engine,
    lines: &mut Vec<SavedLines>,
    turn: Turn,
) -> Result<(), OutOfMemory>
    requires callers { AreCallers (C.callers workers.now) }
    requires apt { C.apt workers.now }
    requires fresh { engine.old.spent ≡ false }
    requires few { engine.old.run.turns < 2 ^ 40 }
    requires sound { IsSound (site_view engine.old.run.site) }
    requires whole { length lines.old.items ≡ length (site_view engine.old.run.site).checkables }
    ensures { (r : Running) (all left : List OneTurn) → Keeps (C.callers workers.now) r all (turn ∷ left) engine.old lines.old.items →
        OnOk result (Keeps (C.callers workers.now) r all left engine.new lines.new.items) }
{
    let out = workers.turn(engine, &turn)?;
    gather(alloc, engine.site(), lines, out.segments)
}
