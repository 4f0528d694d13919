// The lines of the entries of a turn.
ghost use Rattle.std.specs.Prelude.{◌≡◌, ◌++◌, map, All, IfOk, OnOk};
ghost use Rattle.std.specs.List.{flat_map};
ghost use Rattle.site_model.specs.PlainSite.{site_view};
ghost use Rattle.site_text.specs.Entries.{IsPrintable};
ghost use Rattle.run_text.specs.LogText.{styled_entry};
ghost use Rattle.engine_log.specs.TurnLines.{segment_lines};

use log_text::print_entry_two;
use run_text::Style;
use site_base::{OutOfMemory, Text, Texts};
use site_model::{Entry, Site};
use site_posts::Segment;
use site_text::print_entry;
use std::alloc::Global;

/// Adds the lines of the entries, checkable after checkable.
pub(crate) fn add_segments(
    alloc: Global,
    style: Style,
    site: &Site,
    segments: &[Segment],
    lines: &mut Texts,
) -> Result<(), OutOfMemory>
    requires { All (λ x. All (IsPrintable (site_view site.now) x.checkable) x.entries) segments.now }
    ensures { OnOk result (lines.new ≡ lines.old ++ flat_map (segment_lines style (site_view site.now)) segments.now) }
{
    for segment in segments {
        add_entries(
            alloc,
            style,
            site,
            segment.checkable,
            segment.entries.as_slice(),
            lines,
        )?;
    }
    Ok(())
}

/// Adds the lines of the entries of a checkable.
fn add_entries(
    alloc: Global,
    style: Style,
    site: &Site,
    checkable: u32,
    entries: &[Entry],
    lines: &mut Texts,
) -> Result<(), OutOfMemory>
    requires { All (IsPrintable (site_view site.now) checkable) entries.now }
    ensures { OnOk result (lines.new ≡ lines.old ++ map (styled_entry style (site_view site.now) checkable) entries.now) }
{
    for entry in entries {
        lines.push(print_styled(alloc, style, entry, checkable, site)?)?;
    }
    Ok(())
}

/// The line of an entry in this version.
fn print_styled(
    alloc: Global,
    style: Style,
    entry: &Entry,
    checkable: u32,
    site: &Site,
) -> Result<Text, OutOfMemory>
    requires { IsPrintable (site_view site.now) checkable entry.now }
    ensures { IfOk result (λ t. t ≡ styled_entry style (site_view site.now) checkable entry.now) }
{
    match style {
        Style::One => print_entry(alloc, entry, checkable, site),
        Style::Two => print_entry_two(alloc, entry, checkable, site),
    }
}
