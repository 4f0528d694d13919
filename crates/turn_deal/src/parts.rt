// Lines that several threads read.
ghost use Rattle.std.specs.Prelude.{◌+◌, ◌<◌, ◌≤◌, ◌^◌, length, IfOk};
ghost use Rattle.site_model.specs.PlainSite.{site_view};
ghost use Rattle.turn_deal.specs.Parts.{AreParts, Deal};

use crate::lines::{LinesDealt, deal_lines};
use site_base::{Blob, OutOfMemory};
use site_model::Site;
use std::alloc::Global;
use std::thread;
use std::thread::Threads;

/// How many lines are worth a thread.
const FEWEST: usize = 256;

/// What the lines of a turn give, which so many threads read at most, each a part of them. Few lines make no thread.
pub(crate) fn deal_by_parts<R: Threads + Sync>(
    rt: &R,
    alloc: Global,
    site: &Site,
    lines: &[Blob],
    threads: u32,
) -> Result<LinesDealt, OutOfMemory>
    requires { 1 ≤ threads }
    ensures { IfOk result (Deal (site_view site.now) 0 lines.now) }
{
    let size = lines.len().div_ceil(threads as usize).max(FEWEST);
    if lines.len() <= size {
        return deal_lines(alloc, site, 0, lines);
    }
    let parts = parts_of(rt, alloc, site, lines, size)?;
    joined(alloc, site, lines, size, parts)
}

/// What each part of the lines gives. All but the last have this size.
fn parts_of<R: Threads + Sync>(
    rt: &R,
    alloc: Global,
    site: &Site,
    lines: &[Blob],
    size: usize,
) -> Result<Vec<Result<LinesDealt, OutOfMemory>>, OutOfMemory>
    requires { 0 < size }
    ensures { IfOk result (λ parts. AreParts (site_view site.now) size lines.now parts.items) }
{
    let part = |before: usize, lines: &[Blob]| -> Result<LinesDealt, OutOfMemory>
        requires { before + length lines.now < 2 ^ 64 }
        ensures { IfOk result (Deal (site_view site.entry.now) before lines.now) }
    { deal_lines(alloc, site, before, lines) };
    let parts = thread::map_chunks(rt, alloc, lines, size, &part)?;
    Ok(parts)
}

/// What all parts give, one after another.
fn joined(
    alloc: Global,
    _site: &Site,
    lines: &[Blob],
    _size: usize,
    parts: Vec<Result<LinesDealt, OutOfMemory>>,
) -> Result<LinesDealt, OutOfMemory>
    requires size { 0 < _size }
    requires parts { AreParts (site_view _site.now) _size lines.now parts.items }
    ensures { IfOk result (Deal (site_view _site.now) 0 lines.now) }
{
    let mut acts = Vec::with_capacity(alloc, lines.len())?;
    let mut refusals = Vec::new(alloc);
    for part in parts {
        let mut dealt = part?;
        acts.append(&mut dealt.acts)?;
        refusals.append(&mut dealt.refusals)?;
    }
    Ok(LinesDealt { acts, refusals })
}
