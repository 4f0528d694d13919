// Which notifications each checkable has.
ghost use Rattle.std.specs.Prelude.{◌≡◌, ◌<◌, ◌^◌, ◌++◌, ◌∷◌, [], ℕ, IfOk, OnOk, length, slice_set};
ghost use Rattle.site_model.specs.PlainSite.{site_view};
ghost use Rattle.run_meaning.specs.Turns.{of_index};
ghost use Rattle.notify_rules.specs.Sent.{IsNoteIndex};

use site_base::{OutOfMemory, Row};
use site_model::Site;
use std::alloc::Global;
use std::marker::Model;

/// The notifications of each checkable of a site, by their places in the list of the `Site`, ascending. It is made once for a site,
/// so that the book of a checkable looks at those of the checkable alone. Clauses see the lists in order.
#[derive(Drop)]
pub struct NoteIndex {
    rows: Vec<Row<u32>>,
}

impl Model for NoteIndex {
    ghost use Rattle.std.specs.Prelude.{List, ℕ};

    ghost Value = { List (List ℕ) };

    ghost view = { λ x. x.rows.items };
}

impl NoteIndex {
    /// The index of a site, in a time that grows with its checkables and notifications.
    ///
    /// # Errors
    ///
    /// `OutOfMemory` if there is none for a list of each checkable and four bytes of each notification.
    pub fn of(alloc: Global, site: &Site) -> Result<NoteIndex, OutOfMemory>
        requires { length site.now.notifies < 2 ^ 32 }
        ensures { IfOk result (IsNoteIndex (site_view site.now)) }
    {
        let mut rows = empty_rows(alloc, site.checkables.len())?;
        for (place, note) in site.notifies.as_slice().iter().enumerate() {
            let checkable = note.checkable as usize;
            if checkable < rows.len() {
                add(&mut rows, checkable, place as u32)?;
            }
        }
        Ok(NoteIndex { rows })
    }

    /// Those of one checkable.
    pub(crate) fn of_checkable(&self, checkable: u32) -> &[u32]
        requires { checkable < length self.now }
        ensures { result.now ≡ of_index checkable self.now }
    {
        self.rows[checkable as usize].as_slice()
    }
}

/// So many empty lists.
fn empty_rows(alloc: Global, count: usize) -> Result<Vec<Row<u32>>, OutOfMemory>
    ensures length { IfOk result (λ v. length v.items ≡ count) }
    ensures empty { IfOk result (λ v. (k : ℕ) → of_index k v.items ≡ []) }
{
    let mut rows = Vec::with_capacity(alloc, count)?;
    for index in 0..count {
        rows.push(Row::new(alloc))?;
    }
    Ok(rows)
}

/// Adds a number at the end of one of the lists.
fn add(rows: &mut Vec<Row<u32>>, index: usize, number: u32) -> Result<(), OutOfMemory>
    requires { index < length rows.old.items }
    ensures { OnOk result (rows.new.items ≡ slice_set rows.old.items index (of_index index rows.old.items ++ number ∷ [])) }
{
    rows[index].push(number)
}
