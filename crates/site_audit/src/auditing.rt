// Whether a log is one of a run.
ghost use Rattle.std.specs.Prelude.{◌≡◌, ◌<◌, ◌≤◌, ◌-◌, ◌^◌, All, length, IfOk, MatchOption};
ghost use Rattle.depend_graph.specs.Cycles.{IsOnCycle};
ghost use Rattle.time_range.specs.Zone.{IsBadFile};
ghost use Rattle.site_model.specs.PlainSite.{site_view};
ghost use Rattle.site_model.specs.Sound.{IsSound};
ghost use Rattle.site_audit.specs.Audit.{is_cut_off as cut_off, verdict_from, IsVerdict, IsVerdictOf};
ghost use Rattle.site_audit.specs.Blocks.{blocks_of, lines_of};

use crate::agreeing::blocks_agreed;
use crate::blocks::{begins_turn, cut_block, cut_line};
use crate::fields::strip;
use crate::turns::first_turns;
use log_text::version_line;
use run_text::Style;
use site_base::OutOfMemory;
use site_model::Site;
use std::alloc::Global;

/// What an audit says of a log.
#[derive(Clone, Copy, Debug, PartialEq, Eq)]
pub enum Verdict {
    /// A run writes this log.
    Legal,
    /// None does. The line, from 1, is the first one of the first block such that no run writes the blocks through it.
    Illegal { line: u64 },
}

/// Whether a log is one that a run of so many callers writes, from 1 to 64, without given histories and with nothing fed. Its first line
/// tells its version. Blocks are what begins with the line of a turn and goes on to just before the next such line; what stands before the first of these is
/// a block too. The site is one that an engine can be made of.
///
/// It takes a time that grows with the log, times a logarithm.
///
/// # Errors
///
/// `OutOfMemory` if there is too little memory for the turns that the log tells or for their run, and also if it has more than 2^40 turns.
pub fn audit(alloc: Global, site: Site, callers: u32, log: &[u8]) -> Result<Verdict, OutOfMemory>
    requires sound { IsSound (site_view site) }
    requires few { length (site_view site).checkables < 2 ^ 32 - 1 }
    requires free { All (λ d. IsOnCycle (site_view site) d → ⊥) (site_view site).depends }
    requires zone { MatchOption (site_view site).zone (Unit {0}) (λ bytes. IsBadFile bytes → ⊥) }
    requires callers { (1 ≤ callers) × (callers ≤ 64) }
    ensures { IfOk result (IsVerdict callers (site_view site) log.now) }
{
    let Some(rest) = strip(log, version_line()) else {
        return audit_blocks(alloc, site, callers, Style::One, log, 1);
    };
    if is_cut_off(rest) {
        audit_blocks(alloc, site, callers, Style::Two, rest, 2)
    } else {
        Ok(Verdict::Illegal { line: 1 })
    }
}

/// Whether nothing stands between the line of the version and the first block that begins a turn.
fn is_cut_off(rest: &[u8]) -> bool
    ensures { result ≡ cut_off rest.now }
{
    rest.is_empty() || begins_turn(rest)
}

/// The same of the blocks of a log, of which this is the number of the first line.
fn audit_blocks(
    alloc: Global,
    site: Site,
    callers: u32,
    style: Style,
    log: &[u8],
    first: u64,
) -> Result<Verdict, OutOfMemory>
    requires sound { IsSound (site_view site) }
    requires few { length (site_view site).checkables < 2 ^ 32 - 1 }
    requires free { All (λ d. IsOnCycle (site_view site) d → ⊥) (site_view site).depends }
    requires zone { MatchOption (site_view site).zone (Unit {0}) (λ bytes. IsBadFile bytes → ⊥) }
    requires callers { (1 ≤ callers) × (callers ≤ 64) }
    requires first { first ≤ 2 }
    ensures { IfOk result (IsVerdictOf style callers (site_view site) first log.now) }
{
    let turns = first_turns(alloc, callers, &site, style, log)?;
    let agreed = blocks_agreed(alloc, site, style, callers, log, turns)?;
    Ok(verdict_after(log, agreed, first))
}

/// What an audit says of a log of which so many blocks agree, from the first block on.
fn verdict_after(log: &[u8], agreed: usize, first: u64) -> Verdict
    requires { first ≤ 2 }
    ensures { result ≡ verdict_from first agreed (blocks_of (lines_of log.now)) }
{
    let mut rest = log;
    let mut line = first;
    for _ in 0..agreed {
        if rest.is_empty() {
            return Verdict::Legal;
        }
        let (block, behind) = cut_block(rest);
        line += count_lines(block);
        rest = behind;
    }
    if rest.is_empty() {
        Verdict::Legal
    } else {
        Verdict::Illegal { line }
    }
}

fn count_lines(bytes: &[u8]) -> u64
    ensures count { result ≡ length (lines_of bytes.now) }
    ensures most { result ≤ length bytes.now }
{
    let mut rest = bytes;
    let mut count = 0;
    while !rest.is_empty() {
        rest = cut_line(rest).1;
        count += 1;
    }
    count
}
