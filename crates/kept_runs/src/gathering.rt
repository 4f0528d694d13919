// The lines of the entries of turns, gathered by checkable.
ghost use Rattle.std.specs.Prelude.{◌≡◌, ◌<◌, All, IfOk, OnOk, length};
ghost use Rattle.run_meaning.specs.Runs.{joined, no_entries as none_of};
ghost use Rattle.run_meaning.specs.Turns.{Histories};
ghost use Rattle.site_keep.specs.StateFile.{lines_of};
ghost use Rattle.site_model.specs.PlainSite.{site_view};
ghost use Rattle.site_posts.specs.Segments.{segments_of};
ghost use Rattle.site_text.specs.Entries.{IsPrintable};
ghost use Rattle.kept_runs.specs.Gathered.{with_lines, AllPrintable};

use site_base::OutOfMemory;
use site_keep::SavedLines;
use site_model::Site;
use site_posts::{Segment, Segments};
use std::alloc::Global;

/// No lines for each checkable of a site.
pub(crate) fn no_lines(alloc: Global, site: &Site) -> Result<Vec<SavedLines>, OutOfMemory>
    ensures { IfOk result (λ lines. lines.items ≡ lines_of (site_view site.now) (none_of (site_view site.now))) }
{
    let mut lines = Vec::with_capacity(alloc, site.checkables.len())?;
    for _ in site.checkables.as_slice() {
        lines.push(SavedLines::new(alloc))?;
    }
    Ok(lines)
}

/// Adds the lines of the entries of a round, each after those of its checkable. The entries are dropped.
pub(crate) fn gather(
    alloc: Global,
    site: &Site,
    lines: &mut Vec<SavedLines>,
    segments: Segments,
) -> Result<(), OutOfMemory>
    requires round { (round : Histories) × (segments ≡ segments_of round) × (length round ≡ length lines.old.items) }
    requires printable { AllPrintable (site_view site.now) segments }
    ensures { (before round : Histories) → lines.old.items ≡ lines_of (site_view site.now) before → segments ≡ segments_of round → length round ≡ length before →
        OnOk result (lines.new.items ≡ lines_of (site_view site.now) (joined before round)) }
{
    for segment in segments.into_vec() {
        add_segment(alloc, site, lines, segment)?;
    }
    Ok(())
}

/// Adds the lines of the entries that a checkable gets.
fn add_segment(
    alloc: Global,
    site: &Site,
    lines: &mut Vec<SavedLines>,
    segment: Segment,
) -> Result<(), OutOfMemory>
    requires within { segment.checkable < length lines.old.items }
    requires printable { All (IsPrintable (site_view site.now) segment.checkable) segment.entries }
    ensures { OnOk result (lines.new.items ≡ with_lines (site_view site.now) lines.old.items segment) }
{
    let own = &mut lines[segment.checkable as usize];
    own.add(alloc, site, segment.checkable, segment.entries.as_slice())
}
