// How books are lent to posts, and come back.
ghost use Rattle.std.specs.Prelude.{◌≡◌, ◌<◌, ◌∷◌, ◌++◌, All, List, [], length, map, set, IfOk, OnOk};
ghost use Rattle.std.specs.List.{swap_remove};
ghost use Rattle.site_model.specs.PlainSite.{site_view};
ghost use Rattle.checkable_core.specs.Contents.{Contents};
ghost use Rattle.depend_graph.specs.Graph.{IsGraphOf};
ghost use Rattle.site_posts.specs.Books.{AreBooks, histories_of};
ghost use Rattle.site_posts.specs.Lent.{AreTaken, round_with, with_books};
ghost use Rattle.site_posts.specs.Outlooks.{AreBases, Ascends};
ghost use Rattle.site_posts.specs.Segments.{segments_from, segments_of};

use crate::segment::{Segment, Segments};
use crate::setting::Setting;
use checkable_core::{Checkable, SiteMachine};
use post_rounds::{Base, Ended};
use site_base::{OutOfMemory, Row};
use site_model::Entry;
use std::alloc::Global;
use std::mem;

/// Takes the books of these checkables out, the last one first. The place of each is filled by the last book that is left.
pub(crate) fn take_out(
    alloc: Global,
    books: &mut Vec<Checkable>,
    touched: &[u32],
) -> Result<Vec<Checkable>, OutOfMemory>
    requires ascends { Ascends touched.now }
    requires within { All (λ k. k < length books.old.items) touched.now }
    ensures taken { IfOk result (λ taken. AreTaken books.old.items touched.now taken.items books.new.items) }
{
    let mut taken = Vec::with_capacity(alloc, touched.len())?;
    for checkable in touched.iter().rev() {
        taken.push(books.swap_remove(*checkable as usize))?;
    }
    Ok(taken)
}

/// What the posts of these checkables begin with, whose books come the last one first.
pub(crate) fn bases_of<'a>(
    setting: &Setting<'a>,
    touched: &[u32],
    mut taken: Vec<Checkable>,
) -> Result<Vec<Base<SiteMachine<'a>, Checkable>>, OutOfMemory>
    requires graph { IsGraphOf (site_view setting.now.site.now) setting.now.graph.now }
    requires ascends { Ascends touched.now }
    requires taken { length taken.items ≡ length touched.now }
    ensures { (books left : List Contents) → AreBooks (site_view setting.now.site.now) setting.now.moment books → AreTaken books touched.now taken.items left →
        IfOk result (λ bases. AreBases (site_view setting.now.site.now) setting.now.zone.now setting.now.moment (histories_of books) touched.now bases.items) }
{
    let mut bases = Vec::with_capacity(setting.alloc, touched.len())?;
    for checkable in touched {
        let Some(start) = taken.pop() else {
            unreachable!()
        };
        let machine = SiteMachine {
            site: setting.site,
            graph: setting.graph,
            zone: setting.zone,
            checkable: *checkable,
            moment: setting.moment,
        };
        bases.push(Base {
            machine,
            start,
            number: *checkable,
        })?;
    }
    Ok(bases)
}

/// Puts the books back to the places from which they were taken, and gives their entries of the round.
pub(crate) fn put_back(
    alloc: Global,
    books: &mut Vec<Checkable>,
    touched: &[u32],
    ended: Vec<Ended<Checkable, Entry>>,
) -> Result<Segments, OutOfMemory>
    requires ascends { Ascends touched.now }
    requires whole { length ended.items ≡ length touched.now }
    requires taken { (all taken : List Contents) × AreTaken all touched.now taken books.old.items }
    ensures books { (all taken : List Contents) → AreTaken all touched.now taken books.old.items → OnOk result (books.new.items ≡ with_books all touched.now ended.items) }
    ensures segments { (all taken : List Contents) → AreTaken all touched.now taken books.old.items → IfOk result (λ r. r ≡ segments_of (round_with (map (λ _. []) all) touched.now ended.items)) }
{
    let mut segments = Vec::with_capacity(alloc, ended.len())?;
    let mut at = 0;
    for Ended { state, history } in ended {
        let checkable = touched[at];
        put(books, checkable, state)?;
        add_segment(&mut segments, checkable, history)?;
        at += 1;
    }
    Ok(Row::from(segments))
}

/// Adds what a checkable gets of a round, if it gets any entry.
pub(crate) fn add_segment(
    segments: &mut Vec<Segment>,
    checkable: u32,
    entries: Row<Entry>,
) -> Result<(), OutOfMemory>
    ensures { OnOk result (segments.new.items ≡ segments.old.items ++ segments_from checkable (entries ∷ [])) }
{
    if !entries.is_empty() {
        segments.push(Segment { checkable, entries })?;
    }
    Ok(())
}

/// Puts a book to the place from which it was taken. The one that fills this place is the last again.
#[tactic(auto, using(crate::proofs::Returning::put_last))]
fn put(books: &mut Vec<Checkable>, checkable: u32, book: Checkable) -> Result<(), OutOfMemory>
    ensures { (all : List Contents) (d : Contents) → checkable < length all → books.old.items ≡ swap_remove all checkable d → OnOk result (books.new.items ≡ set all checkable book) }
{
    let at = checkable as usize;
    if at < books.len() {
        let last = mem::replace(&mut books[at], book);
        books.push(last)?;
    } else {
        books.push(book)?;
    }
    Ok(())
}
