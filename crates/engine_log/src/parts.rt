// Lines of entries that several threads make.
ghost use Rattle.std.specs.Prelude.{◌≡◌, ◌<◌, ◌≤◌, ◌++◌, [], All, IfOk, OnOk};
ghost use Rattle.std.specs.List.{flat_map};
ghost use Rattle.site_model.specs.PlainSite.{site_view};
ghost use Rattle.site_text.specs.Entries.{IsPrintable};
ghost use Rattle.engine_log.specs.TurnLines.{AreParts, segment_lines};

use crate::entries::add_segments;
use run_text::Style;
use site_base::{OutOfMemory, Row, Texts};
use site_model::Site;
use site_posts::Segment;
use std::alloc::Global;
use std::thread;
use std::thread::Threads;

/// How many checkables with entries are worth a thread.
const FEWEST: usize = 64;

/// Adds the lines of the entries, checkable after checkable. So many threads at most make them, each for a part of the checkables. Few
/// checkables make no thread.
pub(crate) fn add_by_parts<R: Threads + Sync>(
    rt: &R,
    alloc: Global,
    style: Style,
    site: &Site,
    segments: &[Segment],
    threads: u32,
    lines: &mut Texts,
) -> Result<(), OutOfMemory>
    requires threads { 1 ≤ threads }
    requires printable { All (λ x. All (IsPrintable (site_view site.now) x.checkable) x.entries) segments.now }
    ensures { OnOk result (lines.new ≡ lines.old ++ flat_map (segment_lines style (site_view site.now)) segments.now) }
{
    let size = segments.len().div_ceil(threads as usize).max(FEWEST);
    if segments.len() <= size {
        return add_segments(alloc, style, site, segments, lines);
    }
    let parts = parts_of(rt, alloc, style, site, segments, size)?;
    add_parts(style, site, segments, size, parts, lines)
}

/// The lines of each part of the entries. All but the last are of so many checkables.
fn parts_of<R: Threads + Sync>(
    rt: &R,
    alloc: Global,
    style: Style,
    site: &Site,
    segments: &[Segment],
    size: usize,
) -> Result<Vec<Result<Texts, OutOfMemory>>, OutOfMemory>
    requires size { 0 < size }
    requires printable { All (λ x. All (IsPrintable (site_view site.now) x.checkable) x.entries) segments.now }
    ensures { IfOk result (λ parts. AreParts style (site_view site.now) size segments.now parts.items) }
{
    let part = |_: usize, segments: &[Segment]| -> Result<Texts, OutOfMemory>
        requires { All (λ x. All (IsPrintable (site_view site.now) x.checkable) x.entries) segments.now }
        ensures { IfOk result (λ lines. lines ≡ flat_map (segment_lines style (site_view site.entry.now)) segments.now) }
    { lines_of(alloc, style, site, segments) };
    let parts = thread::map_chunks(rt, alloc, segments, size, &part)?;
    Ok(parts)
}

/// The lines of these entries.
fn lines_of(
    alloc: Global,
    style: Style,
    site: &Site,
    segments: &[Segment],
) -> Result<Texts, OutOfMemory>
    requires { All (λ x. All (IsPrintable (site_view site.now) x.checkable) x.entries) segments.now }
    ensures { IfOk result (λ lines. lines ≡ flat_map (segment_lines style (site_view site.now)) segments.now) }
{
    let mut lines = Row::new(alloc);
    add_segments(alloc, style, site, segments, &mut lines)?;
    Ok(lines)
}

/// Adds the lines of all parts, one after another.
fn add_parts(
    _style: Style,
    _site: &Site,
    _segments: &[Segment],
    _size: usize,
    parts: Vec<Result<Texts, OutOfMemory>>,
    lines: &mut Texts,
) -> Result<(), OutOfMemory>
    requires size { 0 < _size }
    requires parts { AreParts _style (site_view _site.now) _size _segments.now parts.items }
    ensures { OnOk result (lines.new ≡ lines.old ++ flat_map (segment_lines _style (site_view _site.now)) _segments.now) }
{
    for part in parts {
        add_part(part?, lines)?;
    }
    Ok(())
}

/// Adds the lines of a part.
fn add_part(part: Texts, lines: &mut Texts) -> Result<(), OutOfMemory>
    ensures { OnOk result (lines.new ≡ lines.old ++ part) }
{
    for line in part.into_vec() {
        lines.push(line)?;
    }
    Ok(())
}
