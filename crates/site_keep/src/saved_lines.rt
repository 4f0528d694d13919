// The lines of a checkable's entries, as a state file has them.
ghost use Rattle.std.specs.Prelude.{◌≡◌, ◌≤◌, ◌-◌, ◌++◌, ◌∷◌, [], ℕ, List, All, IfOk, OnOk, drop, length, map, sum, take};
ghost use Rattle.json.specs.Token.{string};
ghost use Rattle.serde_json.specs.Data.{array};
ghost use Rattle.site_model.specs.PlainSite.{site_view};
ghost use Rattle.site_text.specs.Entries.{IsPrintable};
ghost use Rattle.site_keep.specs.Pieces.{pieces};
ghost use Rattle.site_keep.specs.Shape.{line_items};
ghost use Rattle.site_keep.specs.StateFile.{saved_line};
ghost use Rattle.site_keep.specs.Writing.{tokens_of, Adds};

use json::Writer;
use log_text::print_entry_two;
use site_base::OutOfMemory;
use site_model::{Entry, Site};
use std::alloc::Global;
use std::marker::Model;

/// The lines of the entries of a checkable, the oldest first: those of version two, each without its newline. They are made as entries
/// come, and stand in one text.
#[derive(Drop)]
pub struct SavedLines {
    /// One line after the other.
    text: Vec<u8>,
    /// How many bytes each line has.
    lengths: Vec<usize>,
}

impl Model for SavedLines {
    ghost use Rattle.std.specs.Prelude.{◌≡◌, List, ℕ, length, sum};
    ghost use Rattle.site_keep.specs.Pieces.{pieces};

    ghost Value = { List (List ℕ) };

    ghost view = { λ x. pieces x.lengths.items x.text.items };

    ghost invariant = { λ x. sum x.lengths.items ≡ length x.text.items };
}

impl SavedLines {
    /// No lines, which take no memory.
    pub fn new(alloc: Global) -> SavedLines
        ensures { result ≡ [] }
    {
        SavedLines {
            text: Vec::new(alloc),
            lengths: Vec::new(alloc),
        }
    }

    /// Adds the lines of entries that the checkable of this index got later.
    ///
    /// # Errors
    ///
    /// `OutOfMemory` if there is none for a line.
    pub fn add(
        &mut self,
        alloc: Global,
        site: &Site,
        checkable: u32,
        entries: &[Entry],
    ) -> Result<(), OutOfMemory>
        requires { All (IsPrintable (site_view site.now) checkable) entries.now }
        ensures { OnOk result (self.new ≡ self.old ++ map (saved_line (site_view site.now) checkable) entries.now) }
    {
        for entry in entries {
            let line = print_entry_two(alloc, entry, checkable, site)?;
            self.push(without_newline(line.as_str()))?;
        }
        Ok(())
    }

    fn push(&mut self, line: &str) -> Result<(), OutOfMemory>
        ensures { OnOk result (self.new ≡ self.old ++ line.now ∷ []) }
    {
        let before = self.text.len();
        self.text.extend_from_slice(line.as_bytes())?;
        if self.lengths.push(line.len()).is_err() {
            self.text.truncate(before);
            return Err(OutOfMemory);
        }
        Ok(())
    }

    /// Writes the lines, as an array of texts.
    pub(crate) fn write(&self, out: &mut Writer) -> Result<(), OutOfMemory>
        ensures { Adds result out.old out.new (tokens_of (array (line_items self.now))) }
    {
        write_pieces(out, self.lengths.as_slice(), self.text.as_slice())
    }
}

/// Writes pieces of these lengths, as an array of texts.
fn write_pieces(out: &mut Writer, lengths: &[usize], text: &[u8]) -> Result<(), OutOfMemory>
    requires { sum lengths.now ≡ length text.now }
    ensures { Adds result out.old out.new (tokens_of (array (line_items (pieces lengths.now text.now)))) }
{
    out.begin_array()?;
    let mut rest = text;
    for count in lengths {
        rest = write_piece(out, *count, rest)?;
    }
    out.end_array()?;
    Ok(())
}

/// Writes so many bytes as a text, and gives those behind them.
fn write_piece<'t>(out: &mut Writer, count: usize, text: &'t [u8]) -> Result<&'t [u8], OutOfMemory>
    requires { count ≤ length text.now }
    ensures written { OnOk result ((out.new.tokens ≡ out.old.tokens ++ string (take count text.now) ∷ []) × (out.new.before ≡ out.old.before)) }
    ensures rest { IfOk result (λ rest. rest.now ≡ drop count text.now) }
{
    let (piece, rest) = text.split_at(count);
    let Ok(piece) = str::from_utf8(piece) else {
        return Err(OutOfMemory);
    };
    out.string(piece)?;
    Ok(rest)
}

/// A line without the newline at its end.
fn without_newline(line: &str) -> &str
    requires { (l : List ℕ) × (line.now ≡ l ++ 10 ∷ []) }
    ensures { result.now ≡ take (length line.now - 1) line.now }
{
    line.strip_suffix('\n').unwrap_or(line)
}
