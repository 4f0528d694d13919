// Lines of entries, read and printed again.
ghost use Rattle.std.specs.Prelude.{◌≡◌};
ghost use Rattle.site_model.specs.PlainSite.{site_view};
ghost use Rattle.log_text.specs.SiteNames.{names_of, names_view};

use crate::telling::push_entry;
use case_rows::{push_marked, unmarked};
use log_text::{EntryError, SiteNames, print_entry_two, read_entry, read_entry_two};
use site_base::{OutOfMemory, Text};
use site_model::{Entry, Site};
use site_text::print_entry;
use std::alloc::Global;

/// Adds what a line of version one tells, and whether that is printed as this line.
pub(crate) fn push_one(
    alloc: Global,
    out: &mut Text,
    text: &str,
    site: &Site,
    names: &SiteNames<'_>,
) -> Result<(), OutOfMemory>
    requires { names_view names.now ≡ names_of (site_view site.now) }
{
    let line = unmarked(alloc, text)?;
    match read_entry(alloc, line.as_str(), names) {
        Ok((checkable, entry)) => {
            let printed = print_entry(alloc, &entry, checkable, site)?;
            push_read(out, line.as_str(), checkable, &entry, printed.as_str())
        }
        Err(error) => push_error(out, error),
    }
}

/// The same of version two.
pub(crate) fn push_two(
    alloc: Global,
    out: &mut Text,
    text: &str,
    site: &Site,
    names: &SiteNames<'_>,
) -> Result<(), OutOfMemory>
    requires { names_view names.now ≡ names_of (site_view site.now) }
{
    let line = unmarked(alloc, text)?;
    match read_entry_two(alloc, line.as_str(), names) {
        Ok((checkable, entry)) => {
            let printed = print_entry_two(alloc, &entry, checkable, site)?;
            push_read(out, line.as_str(), checkable, &entry, printed.as_str())
        }
        Err(error) => push_error(out, error),
    }
}

/// Adds what was read of a line, and how that is printed.
fn push_read(
    out: &mut Text,
    line: &str,
    checkable: u32,
    entry: &Entry,
    printed: &str,
) -> Result<(), OutOfMemory> {
    push_entry(out, checkable, entry)?;
    if printed == line {
        return out.push_str("; printed so");
    }
    out.push_str("; printed as ")?;
    push_marked(out, printed)
}

fn push_error(out: &mut Text, error: EntryError) -> Result<(), OutOfMemory> {
    match error {
        EntryError::BadLine => out.push_str("bad line"),
        EntryError::OutOfMemory => Err(OutOfMemory),
    }
}
