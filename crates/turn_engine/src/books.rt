// The checkables of a site before any entry.
ghost use Rattle.std.specs.Prelude.{◌<◌, ◌^◌, IfOk, length};
ghost use Rattle.site_model.specs.PlainSite.{site_view};
ghost use Rattle.site_model.specs.Sound.{IsSound};
ghost use Rattle.turn_engine.specs.Checkables.{AreEmpty};

use checkable_core::Checkable;
use notify_rules::NoteIndex;
use site_base::OutOfMemory;
use site_model::Site;
use std::alloc::Global;

/// The checkables of a site, which is sound, one each by index, without entries.
///
/// # Errors
///
/// `OutOfMemory` if there is too little memory for them.
pub fn books_of(alloc: Global, site: &Site) -> Result<Vec<Checkable>, OutOfMemory>
    requires sound { IsSound (site_view site.now) }
    requires few { length site.now.checkables < 2 ^ 32 }
    ensures { IfOk result (λ books. AreEmpty (site_view site.now) books.items) }
{
    let notes = NoteIndex::of(alloc, site)?;
    let mut books = Vec::new(alloc);
    for checkable in 0..site.checkables.len() as u32 {
        books.push(Checkable::new(alloc, site, &notes, checkable)?)?;
    }
    Ok(books)
}
