// The lines of entries in version two.
ghost use Rattle.std.specs.Prelude.{◌≡◌, ◌++◌, IfOk, OnOk};
ghost use Rattle.site_model.specs.PlainSite.{site_view};
ghost use Rattle.site_text.specs.Entries.{IsPrintable};
ghost use Rattle.log_text.specs.EntryTwo.{entry_line_two, told_text};

use site_base::{OutOfMemory, Text};
use site_model::{Entry, Event, Site};
use site_text::{Line, push_entry};
use std::alloc::Global;

/// The line of an entry of a checkable in version two: that of version one, and then the quoted output
/// and performance text of a result, or a dash for every other event, with a newline.
pub fn print_entry_two(
    alloc: Global,
    entry: &Entry,
    checkable: u32,
    site: &Site,
) -> Result<Text, OutOfMemory>
    requires { IsPrintable (site_view site.now) checkable entry.now }
    ensures { IfOk result (λ t. t ≡ entry_line_two (site_view site.now) checkable entry.now) }
{
    let mut out = Line::new(alloc)?;
    push_entry(&mut out, entry, checkable, site)?;
    out.push_str(" | ")?;
    push_told(&mut out, &entry.event)?;
    out.push('\n')?;
    out.into_text()
}

/// Adds the texts of a result, or a dash.
fn push_told(out: &mut Line, event: &Event) -> Result<(), OutOfMemory>
    ensures { OnOk result (out.new ≡ out.old ++ told_text event.now) }
{
    match event {
        Event::Result { output, perf, .. } => {
            out.push_quoted(output.as_str())?;
            out.push(' ')?;
            out.push_quoted(perf.as_str())
        }
        _ => out.push('-'),
    }
}
