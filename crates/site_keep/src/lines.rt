// The entries of a checkable, from the tokens of a text.
ghost use Rattle.std.specs.Prelude.{◌≡◌, ◌++◌, ◌∷◌, [], Some, IfOk, OnOk};
ghost use Rattle.log_text.specs.SiteNames.{names_view};
ghost use Rattle.site_keep.specs.Passing.{may_be, MayBe, PassesLine, PassesLines};

use crate::KeepError;
use crate::entries::entry_of;
use crate::tokens::{open_array, take_string};
use json::Reader;
use log_text::SiteNames;
use site_model::Entry;
use std::alloc::Global;

/// Entries of one checkable.
#[derive(Drop)]
pub(crate) struct Lines {
    /// The checkable's index, which is known once there is an entry.
    pub place: Option<u32>,
    pub entries: Vec<Entry>,
}

impl Lines {
    /// Adds an entry of the checkable of this index.
    fn add(&mut self, checkable: u32, entry: Entry) -> Result<(), KeepError>
        ensures same { OnOk result (MayBe self.old.place checkable) }
        ensures place { OnOk result (self.new.place ≡ Some checkable) }
        ensures entries { OnOk result (self.new.entries.items ≡ self.old.entries.items ++ entry ∷ []) }
    {
        if !is_or_none(self.place, checkable) {
            return Err(KeepError::BadState);
        }
        self.place = Some(checkable);
        self.entries.push(entry)?;
        Ok(())
    }
}

/// Whether these entries can be those of the checkable of this index.
pub(crate) fn is_or_none(place: Option<u32>, checkable: u32) -> bool
    ensures { result ≡ may_be place checkable }
{
    match place {
        Some(place) => place == checkable,
        None => true,
    }
}

/// Takes the lines of a checkable's entries, as an array of texts.
pub(crate) fn take_lines(
    alloc: Global,
    reader: &mut Reader<'_>,
    names: &SiteNames,
) -> Result<Lines, KeepError>
    ensures { IfOk result (λ lines. PassesLines (names_view names.now) lines.place lines.entries.items reader.old reader.new) }
{
    open_array(reader)?;
    let mut lines = Lines {
        place: None,
        entries: Vec::new(alloc),
    };
    let mut buffer = String::new(alloc);
    'each_line: while !reader.take_end_array() {
        take_line(alloc, reader, names, &mut buffer, &mut lines)?;
    }
    Ok(lines)
}

/// Takes the line of an entry, which is added to the others.
fn take_line(
    alloc: Global,
    reader: &mut Reader<'_>,
    names: &SiteNames,
    buffer: &mut String,
    lines: &mut Lines,
) -> Result<(), KeepError>
    ensures { OnOk result (PassesLine (names_view names.now) lines.old.place lines.old.entries.items lines.new.place lines.new.entries.items reader.old reader.new) }
{
    let line = take_string(reader)?;
    let (checkable, entry) = entry_of(alloc, buffer, line, names)?;
    lines.add(checkable, entry)?;
    Ok(())
}
