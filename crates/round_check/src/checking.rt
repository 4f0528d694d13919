// Whether entries that are told of are those of a round.
ghost use Rattle.std.specs.Prelude.{◌≡◌, ℕ, List, [], length, map, IfOk, MatchOption};
ghost use Rattle.site_model.specs.PlainSite.{site_view};
ghost use Rattle.checkable_core.specs.Entries.{rules_in};
ghost use Rattle.depend_graph.specs.Graph.{IsGraphOf};
ghost use Rattle.run_meaning.specs.Rounds.{events_on};
ghost use Rattle.run_meaning.specs.Runs.{no_entries};
ghost use Rattle.run_meaning.specs.Turns.{Asked};
ghost use Rattle.site_posts.specs.Books.{AreBooks, histories_of};
ghost use Rattle.site_posts.specs.Made.{asked_of};
ghost use Rattle.site_posts.specs.Many.{asked_in};
ghost use Rattle.site_posts.specs.Segments.{segment_of};
ghost use Rattle.round_check.specs.Answer.{IsNoRound, IsOnlyRound};
ghost use Rattle.round_check.specs.Kept.{AreWanted, AreWithin, IsBegun, MadeAll, shelf_at};
ghost use Rattle.round_check.specs.Making.{made_from};
ghost use Rattle.round_check.specs.Ordered.{told_by_rank};
ghost use Rattle.round_check.specs.Shelves.{listed};
ghost use Rattle.round_check.specs.Ways.{are_ways as ways_in, is_way as way_in};

use crate::Told;
use crate::making::{Making, make};
use crate::ordering::{Ranked, parents_first};
use crate::shelf::{Counts, Shelf};
use crate::walking::{Place, Way};
use checkable_core::Checkable;
use depend_graph::Graph;
use site_base::{Moment, OutOfMemory, Row};
use site_model::{Entry, Event, Site};
use site_posts::{Act, Segment, Segments, Setting};
use std::alloc::Global;
use std::collections::BTreeMap;
use time_range::Zone;

/// The round that callers with these acts made at a moment, by what is told of its entries: which checkables got entries, by ascending
/// index and each its own by number, who made them, and how far their callers saw. `None` if there is no such round; the books are
/// spent then. The books are the checkables of the site, one each by index, and have no entry after the moment. The answer tells the
/// entries.
///
/// It takes a time that grows with the acts, with the entries and their sights, each times a logarithm.
///
/// # Errors
///
/// `OutOfMemory` if there is none for an entry or for what is kept of the round. The books are then spent.
pub fn round_given(
    alloc: Global,
    site: &Site,
    graph: &Graph,
    zone: &Zone,
    books: &mut Vec<Checkable>,
    moment: Moment,
    lists: &[Vec<Act>],
    told: Vec<Told>,
) -> Result<Option<Segments>, OutOfMemory>
    requires graph { IsGraphOf (site_view site.now) graph.now }
    requires books { AreBooks (site_view site.now) moment books.old.items }
    ensures { IfOk result (λ r. MatchOption r (IsNoRound (site_view site.now) zone.now moment books.old.items (map asked_in lists.now) told.items)
        (IsOnlyRound (site_view site.now) zone.now moment books.old.items books.new.items (map asked_in lists.now) told.items)) }
{
    let Some(order) = parents_first(alloc, site, graph, told)? else {
        return Ok(None);
    };
    let setting = Setting {
        alloc,
        site,
        graph,
        zone,
        moment,
    };
    let wanted = wanted_of(alloc, lists)?;
    let Some(making) = made_of(&setting, books, wanted.as_slice(), lists.len(), order)? else {
        return Ok(None);
    };
    if !are_ways(alloc, lists, making.own.as_slice())? {
        return Ok(None);
    }
    Ok(Some(segments_of(alloc, making.gathered)?))
}

/// The events of each caller by checkable.
fn wanted_of(alloc: Global, lists: &[Vec<Act>]) -> Result<Vec<Shelf<Event>>, OutOfMemory>
    ensures wanted { IfOk result (λ wanted. AreWanted (map asked_in lists.now) wanted.items) }
    ensures many { IfOk result (λ wanted. length wanted.items ≡ length lists.now) }
{
    let mut wanted = Vec::with_capacity(alloc, lists.len())?;
    for list in lists {
        wanted.push(events_in(alloc, list)?)?;
    }
    Ok(wanted)
}

/// The events of acts by checkable.
#[tactic(auto, using(crate::proofs::LoopLaws::events_end))]
fn events_in(alloc: Global, acts: &[Act]) -> Result<Shelf<Event>, OutOfMemory>
    ensures { IfOk result (λ shelf. (p : ℕ) → listed shelf.lists.entries p ≡ events_on p (map asked_of acts.now)) }
{
    let mut events = Shelf::new(alloc);
    for act in acts {
        events.push(alloc, act.checkable, act.event.clone()?)?;
    }
    Ok(events)
}

/// What is kept once all that is told was made, in this order. `None` if it can't be.
fn made_of(
    setting: &Setting,
    books: &mut Vec<Checkable>,
    wanted: &[Shelf<Event>],
    callers: usize,
    order: Vec<Ranked>,
) -> Result<Option<Making>, OutOfMemory>
    requires graph { IsGraphOf (site_view setting.now.site.now) setting.now.graph.now }
    requires books { AreBooks (site_view setting.now.site.now) setting.now.moment books.old.items }
    requires within { AreWithin (site_view setting.now.site.now) (map told_by_rank order.items) }
    requires callers { length wanted.now ≡ callers }
    ensures { (events : List (List Asked)) → AreWanted events wanted.now → length events ≡ callers →
        IfOk result (λ r. MadeAll (site_view setting.now.site.now) setting.now.moment (histories_of books.old.items) callers books.new.items
        (made_from (rules_in (site_view setting.now.site.now) setting.now.zone.now) setting.now.moment (histories_of books.old.items) events (map told_by_rank order.items) (no_entries (site_view setting.now.site.now))) r) }
{
    let mut making = begin(setting.alloc, callers)?;
    for ranked in order {
        if !make(setting, books, wanted, &mut making, ranked.told)? {
            return Ok(None);
        }
    }
    Ok(Some(making))
}

/// What is kept before anything is made.
fn begin(alloc: Global, callers: usize) -> Result<Making, OutOfMemory>
    ensures { IfOk result (IsBegun callers) }
{
    let own = empty_shelves(alloc, callers)?;
    Ok(Making {
        gathered: BTreeMap::new(alloc),
        views: Shelf::new(alloc),
        own,
    })
}

/// So many shelves with nothing on them.
#[tactic(auto, using(crate::proofs::LoopLaws::empty_more))]
fn empty_shelves(alloc: Global, many: usize) -> Result<Vec<Shelf<Place>>, OutOfMemory>
    ensures { IfOk result (λ shelves. (length shelves.items ≡ many) × ((k p : ℕ) → shelf_at shelves.items k p ≡ [])) }
{
    let mut shelves = Vec::with_capacity(alloc, many)?;
    while shelves.len() < many {
        shelves.push(Shelf::new(alloc))?;
    }
    Ok(shelves)
}

/// Whether the ways of all callers can be followed.
fn are_ways(alloc: Global, lists: &[Vec<Act>], own: &[Shelf<Place>]) -> Result<bool, OutOfMemory>
    requires { length own.now ≡ length lists.now }
    ensures { IfOk result (λ are. are ≡ ways_in own.now (map asked_in lists.now)) }
{
    for (caller, list) in lists.iter().enumerate() {
        if !is_way(alloc, list, &own[caller])? {
            return Ok(false);
        }
    }
    Ok(true)
}

/// Whether a caller's way through its acts can be followed.
#[tactic(auto, using(crate::proofs::LoopLaws::way_next, crate::proofs::LoopLaws::way_fails, crate::proofs::LoopLaws::way_end, crate::proofs::LoopLaws::way_begin))]
fn is_way(alloc: Global, acts: &[Act], own: &Shelf<Place>) -> Result<bool, OutOfMemory>
    ensures { IfOk result (λ is. is ≡ way_in (listed own.now.lists.entries) (λ _. 0) (λ _. 0) (map asked_of acts.now)) }
{
    let mut way = Way {
        done: Counts::new(alloc),
        last: Counts::new(alloc),
    };
    for act in acts {
        if !way.go_on(own, act.checkable)? {
            return Ok(false);
        }
    }
    Ok(true)
}

/// What is gathered, by ascending index.
fn segments_of(alloc: Global, gathered: BTreeMap<u32, Row<Entry>>) -> Result<Segments, OutOfMemory>
    ensures { IfOk result (λ r. r ≡ map segment_of gathered.entries) }
{
    let mut segments = Vec::with_capacity(alloc, gathered.len())?;
    for (checkable, entries) in gathered {
        segments.push(Segment { checkable, entries })?;
    }
    Ok(Row::from(segments))
}
