// How far a log is that of a run over given turns.
ghost use Rattle.std.specs.Prelude.{◌≡◌, ◌<◌, ◌≤◌, ◌-◌, ◌^◌, List, false, length, map, All, IfOk, OnOk, MatchOption};
ghost use Rattle.std.specs.Bool.{OnTrue};
ghost use Rattle.std.specs.List.{concat};
ghost use Rattle.std.specs.Str.{bytes_eq};
ghost use Rattle.depend_graph.specs.Cycles.{IsOnCycle};
ghost use Rattle.log_text.specs.SiteNames.{names_of};
ghost use Rattle.time_range.specs.Zone.{IsBadFile};
ghost use Rattle.run_meaning.specs.Turns.{Begun};
ghost use Rattle.site_model.specs.PlainSite.{site_view};
ghost use Rattle.site_model.specs.Sound.{IsSound};
ghost use Rattle.turn_engine.specs.Stages.{basis_of_run, stage_from, stage_of, turn_as_read};
ghost use Rattle.site_audit.specs.Agreeing.{AgreeBy, AgreeUpTo};
ghost use Rattle.site_audit.specs.Blocks.{blocks_of, lines_of};
ghost use Rattle.site_audit.specs.ByCallers.{round_of, turn_of, AgreesSo, AreToldIn, IsToldIn};

use crate::blocks::cut_block;
use crate::fields::strip;
use crate::rounds::ToldTurn;
use engine_log::turn_lines;
use run_text::Style;
use site_base::{OutOfMemory, Text};
use site_edge::Turn;
use site_model::Site;
use std::alloc::Global;
use turn_engine::Engine;

/// An engine takes at most so many turns.
const MOST_TURNS: u64 = 1 << 40;

/// How many blocks of a log a run of so many callers over these turns writes, from the first block on. Blocks are what begins with the line
/// of a turn and goes on to just before the next such line; the line `log 2` isn't in the log. The site is one that an engine can be made
/// of, and the rounds are those that the blocks tell.
///
/// It takes a time that grows with the log and the run, times a logarithm.
///
/// # Errors
///
/// `OutOfMemory` if there is too little memory for the run, and also if it has more than 2^40 turns.
pub(crate) fn blocks_agreed(
    alloc: Global,
    site: Site,
    style: Style,
    callers: u32,
    log: &[u8],
    turns: Vec<ToldTurn>,
) -> Result<usize, OutOfMemory>
    requires sound { IsSound (site_view site) }
    requires few { length (site_view site).checkables < 2 ^ 32 - 1 }
    requires free { All (λ d. IsOnCycle (site_view site) d → ⊥) (site_view site).depends }
    requires zone { MatchOption (site_view site).zone (Unit {0}) (λ bytes. IsBadFile bytes → ⊥) }
    requires callers { (1 ≤ callers) × (callers ≤ 64) }
    requires rounds { 2 ≤ callers → AreToldIn style (names_of (site_view site)) (map round_of turns.items) (blocks_of (lines_of log.now)) }
    ensures { IfOk result (AgreeBy style callers (site_view site) (map turn_of turns.items) log.now) }
{
    let mut engine = Engine::new(alloc, site)?;
    agreed(alloc, &mut engine, style, callers, log, turns)
}

/// How many blocks of a log so many callers of an engine write over these turns, from the first block on.
///
/// # Errors
///
/// `OutOfMemory` if there is too little memory for what a turn gives. The engine is spent then.
fn agreed(
    alloc: Global,
    engine: &mut Engine,
    style: Style,
    callers: u32,
    log: &[u8],
    turns: Vec<ToldTurn>,
) -> Result<usize, OutOfMemory>
    requires fresh { engine.old.spent ≡ false }
    requires sound { IsSound (site_view engine.old.run.site) }
    requires callers { (1 ≤ callers) × (callers ≤ 64) }
    requires rounds { 2 ≤ callers → AreToldIn style (names_of (site_view engine.old.run.site)) (map round_of turns.items) (blocks_of (lines_of log.now)) }
    ensures { (begun : List Begun) → IfOk result (AgreeUpTo style (basis_of_run engine.old.run) callers (stage_of engine.old.run begun) (map (turn_as_read engine.old.run) (map turn_of turns.items)) (blocks_of (lines_of log.now))) }
{
    let mut rest = log;
    let mut count = 0;
    for told in turns {
        if rest.is_empty() {
            return Ok(count);
        }
        let (block, behind) = cut_block(rest);
        if !agrees(alloc, engine, style, callers, told, block)? {
            return Ok(count);
        }
        rest = behind;
        count += 1;
    }
    Ok(count)
}

/// Takes a turn of so many callers, and tells whether a block is what is written of it. The engine is spent if it isn't.
fn agrees(
    alloc: Global,
    engine: &mut Engine,
    style: Style,
    callers: u32,
    told: ToldTurn,
    block: &[u8],
) -> Result<bool, OutOfMemory>
    requires fresh { engine.old.spent ≡ false }
    requires sound { IsSound (site_view engine.old.run.site) }
    requires callers { (1 ≤ callers) × (callers ≤ 64) }
    requires round { 2 ≤ callers → IsToldIn style (names_of (site_view engine.old.run.site)) (lines_of block.now) told.round.items }
    ensures agrees { (begun : List Begun) →
        IfOk result (AgreesSo style (basis_of_run engine.old.run) callers (stage_of engine.old.run begun) (turn_as_read engine.old.run told.turn) (lines_of block.now) (stage_from engine.old.run begun engine.new.run)) }
    ensures site { OnOk result (engine.new.run.site ≡ engine.old.run.site) }
    ensures zone { OnOk result (engine.new.run.zone ≡ engine.old.run.zone) }
    ensures fresh { IfOk result (λ same. OnTrue same (engine.new.spent ≡ false)) }
{
    if engine.turns() >= MOST_TURNS {
        return Err(OutOfMemory);
    }
    if callers == 1 {
        agrees_alone(alloc, engine, style, &told.turn, block)
    } else {
        agrees_told(alloc, engine, style, callers, told, block)
    }
}

/// The same of one caller, whose turn has one log.
fn agrees_alone(
    alloc: Global,
    engine: &mut Engine,
    style: Style,
    turn: &Turn,
    block: &[u8],
) -> Result<bool, OutOfMemory>
    requires fresh { engine.old.spent ≡ false }
    requires few { engine.old.run.turns < 2 ^ 40 }
    requires sound { IsSound (site_view engine.old.run.site) }
    ensures agrees { (begun : List Begun) →
        IfOk result (AgreesSo style (basis_of_run engine.old.run) 1 (stage_of engine.old.run begun) (turn_as_read engine.old.run turn.now) (lines_of block.now) (stage_from engine.old.run begun engine.new.run)) }
    ensures site { OnOk result (engine.new.run.site ≡ engine.old.run.site) }
    ensures zone { OnOk result (engine.new.run.zone ≡ engine.old.run.zone) }
    ensures fresh { IfOk result (λ same. OnTrue same (engine.new.spent ≡ false)) }
{
    let out = engine.turn_one(turn)?;
    let lines = turn_lines(alloc, style, engine.site(), &out)?;
    Ok(is_text_of(block, lines.as_slice()))
}

/// The same of several callers, whose turn has one log at most with a round that is told so.
fn agrees_told(
    alloc: Global,
    engine: &mut Engine,
    style: Style,
    callers: u32,
    told: ToldTurn,
    block: &[u8],
) -> Result<bool, OutOfMemory>
    requires fresh { engine.old.spent ≡ false }
    requires few { engine.old.run.turns < 2 ^ 40 }
    requires sound { IsSound (site_view engine.old.run.site) }
    requires callers { (1 ≤ callers) × (callers ≤ 64) }
    requires round { IsToldIn style (names_of (site_view engine.old.run.site)) (lines_of block.now) told.round.items }
    ensures agrees { (begun : List Begun) →
        IfOk result (AgreesSo style (basis_of_run engine.old.run) callers (stage_of engine.old.run begun) (turn_as_read engine.old.run told.turn) (lines_of block.now) (stage_from engine.old.run begun engine.new.run)) }
    ensures site { OnOk result (engine.new.run.site ≡ engine.old.run.site) }
    ensures zone { OnOk result (engine.new.run.zone ≡ engine.old.run.zone) }
    ensures fresh { IfOk result (λ same. OnTrue same (engine.new.spent ≡ false)) }
{
    let ToldTurn { turn, round } = told;
    let Some(out) = engine.turn_given(&turn, callers, round)? else {
        return Ok(false);
    };
    let lines = turn_lines(alloc, style, engine.site(), &out)?;
    Ok(is_text_of(block, lines.as_slice()))
}

/// Whether some bytes are these lines, one after another.
fn is_text_of(bytes: &[u8], lines: &[Text]) -> bool
    ensures { result ≡ bytes_eq bytes.now (concat lines.now) }
{
    let mut rest = bytes;
    for line in lines {
        match strip(rest, line.as_str()) {
            Some(behind) => rest = behind,
            None => return false,
        }
    }
    rest.is_empty()
}
