// A round of one caller.
ghost use Rattle.std.specs.Prelude.{◌≡◌, ◌∷◌, ℕ, [], map, IfOk, OnOk, OnErr};
ghost use Rattle.site_model.specs.PlainSite.{site_view};
ghost use Rattle.run_meaning.specs.Alone.{AreOnSite};
ghost use Rattle.run_meaning.specs.Rounds.{IsRound};
ghost use Rattle.run_meaning.specs.Runs.{joined};
ghost use Rattle.depend_graph.specs.Graph.{IsGraphOf};
ghost use Rattle.site_posts.specs.Books.{AreBooks, histories_of};
ghost use Rattle.site_posts.specs.Made.{IsPartly, asked_of, round_made};
ghost use Rattle.checkable_core.specs.Entries.{rules_in};
ghost use Rattle.site_posts.specs.Segments.{segments_of as segments_in};

use crate::act::Act;
use crate::gathering::Gathered;
use crate::in_order::take_in_order;
use crate::segment::Segments;
use crate::setting::Setting;
use crate::touched::touched_by;
use checkable_core::Checkable;
use depend_graph::Graph;
use site_base::{Moment, OutOfMemory};
use site_model::Site;
use std::alloc::Global;
use std::slice;
use time_range::Zone;

/// Takes the acts of one caller at a moment, one after another, and gives the entries that checkables get of them. Each entry is made by
/// what the ancestors of its checkable show when it is made. The books are the checkables of the site, one each by index, and have
/// no entry after the moment.
///
/// It takes a time that grows with the acts, with the ancestors of their checkables and the downtimes of these checkables that aren't past,
/// and with the logarithm of how many checkables get entries.
///
/// # Errors
///
/// `OutOfMemory` if there is too little memory for an entry, its sights or the answer. The books then have the entries of the first of the
/// acts, of which any number was taken.
pub fn round_one(
    alloc: Global,
    site: &Site,
    graph: &Graph,
    zone: &Zone,
    books: &mut Vec<Checkable>,
    moment: Moment,
    list: Vec<Act>,
) -> Result<Segments, OutOfMemory>
    requires graph { IsGraphOf (site_view site.now) graph.now }
    requires books { AreBooks (site_view site.now) moment books.old.items }
    requires acts { AreOnSite (site_view site.now) (map asked_of list.items) }
    ensures round { OnOk result (IsRound (rules_in (site_view site.now) zone.now) moment (histories_of books.old.items) (map asked_of list.items ∷ []) (round_made (site_view site.now) zone.now moment (histories_of books.old.items) (map asked_of list.items))) }
    ensures segments { IfOk result (λ r. r ≡ segments_in (round_made (site_view site.now) zone.now moment (histories_of books.old.items) (map asked_of list.items))) }
    ensures behind { OnOk result (histories_of books.new.items ≡ joined (histories_of books.old.items) (round_made (site_view site.now) zone.now moment (histories_of books.old.items) (map asked_of list.items))) }
    ensures books { AreBooks (site_view site.now) moment books.new.items }
    ensures partly { OnErr result (IsPartly (rules_in (site_view site.now) zone.now) moment (histories_of books.old.items) (map asked_of list.items) (histories_of books.new.items)) }
{
    let setting = Setting {
        alloc,
        site,
        graph,
        zone,
        moment,
    };
    let touched = touched_by(alloc, slice::from_ref(&list))?;
    let mut gathered = Gathered::new(alloc, touched)?;
    take_in_order(&setting, books, 0, list, &mut gathered)?;
    gathered.segments()
}
