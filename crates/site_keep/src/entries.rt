// Reading the entries of a checkable.
ghost use Rattle.std.specs.Prelude.{◌≡◌, ◌++◌, ◌∷◌, []};
ghost use Rattle.serde_json.specs.View.{items_view, view};
ghost use Rattle.log_text.specs.EntryReading.{entry_two_read};
ghost use Rattle.log_text.specs.SiteNames.{names_view};
ghost use Rattle.site_keep.specs.Given.{Gives};
ghost use Rattle.site_keep.specs.Reading.{entries_among, entries_in, entry_in};

use crate::KeepError;
use log_text::{SiteNames, read_entry_two};
use serde_json::Value;
use site_model::Entry;
use std::alloc::Global;

/// The entries of the checkable of this index, each from its line.
#[tactic(auto, unfolding(crate::specs::Reading::entries_in))]
pub(crate) fn read_entries(
    alloc: Global,
    value: &Value,
    checkable: u32,
    names: &SiteNames,
) -> Result<Vec<Entry>, KeepError>
    ensures { Gives (λ v. v.items) result (entries_in (names_view names.now) checkable (view value.now)) }
{
    match value.as_array() {
        Some(lines) => read_lines(alloc, lines.as_slice(), checkable, names),
        None => Err(KeepError::BadState),
    }
}

fn read_lines(
    alloc: Global,
    lines: &[Value],
    checkable: u32,
    names: &SiteNames,
) -> Result<Vec<Entry>, KeepError>
    ensures { Gives (λ v. v.items) result (entries_among (names_view names.now) checkable (items_view lines.now)) }
{
    let mut entries = Vec::with_capacity(alloc, lines.len())?;
    let mut buffer = String::new(alloc);
    for line in lines {
        entries.push(read_line(alloc, &mut buffer, line, checkable, names)?)?;
    }
    Ok(entries)
}

/// The entry of a line.
#[tactic(auto, unfolding(crate::specs::Reading::entry_in))]
fn read_line(
    alloc: Global,
    buffer: &mut String,
    line: &Value,
    checkable: u32,
    names: &SiteNames,
) -> Result<Entry, KeepError>
    ensures { Gives (λ e. e) result (entry_in (names_view names.now) checkable (view line.now)) }
{
    let Some(line) = line.as_str() else {
        return Err(KeepError::BadState);
    };
    let (named, entry) = entry_of(alloc, buffer, line, names)?;
    if named != checkable {
        return Err(KeepError::BadState);
    }
    Ok(entry)
}

/// The checkable and the entry that a line without its newline is of. The buffer takes the line with its newline.
pub(crate) fn entry_of(
    alloc: Global,
    buffer: &mut String,
    line: &str,
    names: &SiteNames,
) -> Result<(u32, Entry), KeepError>
    ensures { Gives (λ x. (x.0, x.1)) result (entry_two_read (names_view names.now) (line.now ++ 10 ∷ [])) }
{
    buffer.clear();
    buffer.push_str(line)?;
    buffer.push('\n')?;
    Ok(read_entry_two(alloc, buffer.as_str(), names)?)
}
