// A round that is made of what is told of it.
ghost use Rattle.std.specs.Prelude.{◌≡◌, ◌<◌, ◌-◌, ◌++◌, ◌∷◌, ℕ, List, nat_lt, [], Some, None, map, length, nat_eq, option_map, slice_get, IfOk, IfSome, OnOk, if◌then◌else◌};
ghost use Rattle.std.specs.Str.{bytes_eq};
ghost use Rattle.site_model.specs.PlainSite.{PlainSite, site_view};
ghost use Rattle.checkable_core.specs.Contents.{check_at};
ghost use Rattle.checkable_core.specs.Entries.{entry_made, rules_in};
ghost use Rattle.depend_graph.specs.Graph.{IsGraphOf};
ghost use Rattle.run_meaning.specs.Alone.{with_entry};
ghost use Rattle.run_meaning.specs.Reachability.{ancestors};
ghost use Rattle.run_meaning.specs.Runs.{joined};
ghost use Rattle.run_meaning.specs.Turns.{Asked, Histories, of_index};
ghost use Rattle.run_meaning.specs.View.{view_of};
ghost use Rattle.site_posts.specs.Books.{AreBooks, histories_of};
ghost use Rattle.site_posts.specs.Segments.{segment_of, segments_of as segments_in};
ghost use Rattle.round_check.specs.Kept.{AreViews, AreWanted, IsMaking, MadeSo, next_wanted, seen_told, shelf_at, view_at};
ghost use Rattle.round_check.specs.Making.{are_sights, is_sight, made_with};
ghost use Rattle.round_check.specs.Shelves.{listed};
ghost use Rattle.round_check.specs.Ways.{place_of};

use crate::Told;
use crate::shelf::Shelf;
use crate::walking::Place;
use checkable_core::Checkable;
use site_base::{OutOfMemory, Row};
use site_model::{Entry, Event, Sight, View};
use site_posts::Setting;
use std::alloc::Global;
use std::collections::BTreeMap;

/// What is kept of a round in the making: the entries so far, what checkables showed before each of them, and whose they are.
#[derive(Drop)]
pub(crate) struct Making {
    pub(crate) gathered: BTreeMap<u32, Row<Entry>>,
    pub(crate) views: Shelf<View>,
    /// Of each caller its own entries.
    pub(crate) own: Vec<Shelf<Place>>,
}

/// Makes the next entry that is told. `false` where its caller has no event for it, or can't have seen what it saw.
pub(crate) fn make(
    setting: &Setting,
    books: &mut Vec<Checkable>,
    wanted: &[Shelf<Event>],
    making: &mut Making,
    told: Told,
) -> Result<bool, OutOfMemory>
    requires graph { IsGraphOf (site_view setting.now.site.now) setting.now.graph.now }
    requires books { AreBooks (site_view setting.now.site.now) setting.now.moment books.old.items }
    requires checkable { told.checkable < length (site_view setting.now.site.now).checkables }
    requires callers { length making.old.own.items ≡ length wanted.now }
    ensures made { (before round : Histories) (events : List (List Asked)) → AreWanted events wanted.now → IsMaking (site_view setting.now.site.now) setting.now.moment before (length events) round making.old books.old.items →
        IfOk result (MadeSo (λ next. IsMaking (site_view setting.now.site.now) setting.now.moment before (length events) next making.new books.new.items) (made_with (rules_in (site_view setting.now.site.now) setting.now.zone.now) setting.now.moment before events told round)) }
    ensures books { OnOk result (AreBooks (site_view setting.now.site.now) setting.now.moment books.new.items) }
    ensures callers { OnOk result (length making.new.own.items ≡ length making.old.own.items) }
{
    let Some(event) = event_told(wanted, making.own.as_slice(), &told)? else {
        return Ok(false);
    };
    let Some(seen) = sights_told(setting, books, &making.views, &told)? else {
        return Ok(false);
    };
    let Told {
        checkable,
        caller,
        sights,
    } = told;
    let before = books[checkable as usize].view();
    let entry = take(setting, books, caller, checkable, event, &seen)?;
    making.add(setting.alloc, checkable, before, sights, entry)?;
    Ok(true)
}

/// The next event of the caller that is told, on the checkable.
fn event_told(
    wanted: &[Shelf<Event>],
    own: &[Shelf<Place>],
    told: &Told,
) -> Result<Option<Event>, OutOfMemory>
    ensures { IfOk result (λ r. r ≡ next_wanted wanted.now own.now told.now) }
{
    let many = list_at(own, told.caller, told.checkable).len();
    match list_at(wanted, told.caller, told.checkable).get(many) {
        Some(event) => Ok(Some(event.clone()?)),
        None => Ok(None),
    }
}

/// What a caller's shelf has of a checkable.
fn list_at<T: Drop>(shelves: &[Shelf<T>], caller: u32, checkable: u32) -> &[T]
    ensures { result.now ≡ shelf_at shelves.now caller checkable }
{
    match shelves.get(caller as usize) {
        Some(shelf) => shelf.at(checkable),
        None => &[],
    }
}

/// What was seen at the sights that are told. `None` if they aren't of the ancestors of the checkable, or one is of less than stood
/// there before the round or of more than stands.
fn sights_told(
    setting: &Setting,
    books: &[Checkable],
    views: &Shelf<View>,
    told: &Told,
) -> Result<Option<Vec<(u32, View)>>, OutOfMemory>
    requires graph { IsGraphOf (site_view setting.now.site.now) setting.now.graph.now }
    requires books { AreBooks (site_view setting.now.site.now) setting.now.moment books.now }
    requires checkable { told.now.checkable < length (site_view setting.now.site.now).checkables }
    ensures names { IfOk result (λ r. IfSome r (λ v. map (λ x. x.0) v.items ≡ ancestors (site_view setting.now.site.now) told.now.checkable)) }
    ensures told { (before round : Histories) → AreViews (site_view setting.now.site.now) before round views.now.lists.entries → histories_of books.now ≡ joined before round →
        IfOk result (λ r. option_map (λ v. v.items) r
        ≡ (if are_sights (rules_in (site_view setting.now.site.now) setting.now.zone.now) before round told.now then Some (seen_told (site_view setting.now.site.now) before round told.now.sights) else None)) }
{
    let ancestors = setting.graph.ancestors(told.checkable);
    let sights = told.sights.as_slice();
    let mut seen = Vec::new(setting.alloc);
    if !are_of(sights, ancestors) {
        return Ok(None);
    }
    seen.reserve_exact(sights.len())?;
    for sight in sights {
        let Some(view) = view_told(books, views, sight) else {
            return Ok(None);
        };
        seen.push((sight.checkable, view))?;
    }
    Ok(Some(seen))
}

/// Whether sights are of these checkables.
#[tactic(auto, using(crate::proofs::LoopLaws::names_next, crate::proofs::LoopLaws::names_fail, crate::proofs::LoopLaws::names_end, crate::proofs::LoopLaws::names_apart))]
fn are_of(sights: &[Sight], checkables: &[u32]) -> bool
    ensures { result ≡ bytes_eq (map (λ x. x.checkable) sights.now) checkables.now }
{
    if sights.len() != checkables.len() {
        return false;
    }
    for (at, sight) in sights.iter().enumerate() {
        if sight.checkable != checkables[at] {
            return false;
        }
    }
    true
}

/// What was seen at a sight. `None` if it is of less than stood there before the round, or of more than stands.
fn view_told(books: &[Checkable], views: &Shelf<View>, sight: &Sight) -> Option<View>
    requires { sight.now.checkable < length books.now }
    ensures { (s : PlainSite) (now : ℕ) (before round : Histories) → AreBooks s now books.now → AreViews s before round views.now.lists.entries → histories_of books.now ≡ joined before round →
        result ≡ (if is_sight before round sight.now then Some (view_at s before round sight.now) else None) }
{
    let now = books[sight.checkable as usize].view();
    if now.count < sight.count {
        return None;
    }
    let later = (now.count - sight.count) as usize;
    if later == 0 {
        return Some(now);
    }
    view_back(views.at(sight.checkable), later)
}

/// The view so many places before the end.
fn view_back(views: &[View], places: usize) -> Option<View>
    requires { 0 < places }
    ensures { result ≡ (if nat_lt (length views.now) places then None else slice_get views.now (length views.now - places)) }
{
    if views.len() < places {
        None
    } else {
        Some(views[views.len() - places])
    }
}

/// Makes an entry of a caller's event by what was seen.
fn take(
    setting: &Setting,
    books: &mut Vec<Checkable>,
    caller: u32,
    checkable: u32,
    event: Event,
    seen: &[(u32, View)],
) -> Result<Entry, OutOfMemory>
    requires graph { IsGraphOf (site_view setting.now.site.now) setting.now.graph.now }
    requires books { AreBooks (site_view setting.now.site.now) setting.now.moment books.old.items }
    requires checkable { checkable < length (site_view setting.now.site.now).checkables }
    requires seen { map (λ x. x.0) seen.now ≡ ancestors (site_view setting.now.site.now) checkable }
    ensures entry { IfOk result (λ e. e ≡ entry_made (site_view setting.now.site.now) setting.now.zone.now checkable (of_index checkable (histories_of books.old.items)) caller setting.now.moment event seen.now) }
    ensures kept { IfOk result (λ e. histories_of books.new.items ≡ with_entry checkable e (histories_of books.old.items)) }
    ensures books { OnOk result (AreBooks (site_view setting.now.site.now) setting.now.moment books.new.items) }
{
    let book = &mut books[checkable as usize];
    match book.apply(
        setting.site,
        setting.graph,
        setting.zone,
        caller,
        setting.moment,
        event,
        seen,
    ) {
        Ok(entry) => Ok(entry),
        Err(_) => Err(OutOfMemory),
    }
}

impl Making {
    /// Adds an entry of a checkable that showed this before, and whose caller saw so much.
    fn add(
        &mut self,
        alloc: Global,
        checkable: u32,
        before: View,
        sights: Row<Sight>,
        entry: Entry,
    ) -> Result<(), OutOfMemory>
        requires { entry.caller < length self.old.own.items }
        ensures views { (q : ℕ) → OnOk result (listed self.new.views.lists.entries q ≡ listed self.old.views.lists.entries q ++ (if nat_eq checkable q then before ∷ [] else [])) }
        ensures callers { OnOk result (length self.new.own.items ≡ length self.old.own.items) }
        ensures own { (k q : ℕ) → OnOk result (shelf_at self.new.own.items k q
            ≡ shelf_at self.old.own.items k q ++ (if nat_eq entry.caller k then (if nat_eq checkable q then record { number = entry.number; sights = sights } ∷ [] else []) else [])) }
        ensures entries { (round : Histories) → checkable < length round → map segment_of self.old.gathered.entries ≡ segments_in round →
            OnOk result (map segment_of self.new.gathered.entries ≡ segments_in (with_entry checkable entry round)) }
    {
        self.views.push(alloc, checkable, before)?;
        let place = Place {
            number: entry.number,
            sights,
        };
        push_at(
            alloc,
            self.own.as_mut_slice(),
            entry.caller,
            checkable,
            place,
        )?;
        gather(alloc, &mut self.gathered, checkable, entry)
    }
}

/// Adds an entry to the caller's own on a checkable.
fn push_at(
    alloc: Global,
    own: &mut [Shelf<Place>],
    caller: u32,
    checkable: u32,
    place: Place,
) -> Result<(), OutOfMemory>
    requires { caller < length own.old }
    ensures callers { OnOk result (length own.new ≡ length own.old) }
    ensures own { (k q : ℕ) → OnOk result (shelf_at own.new k q ≡ shelf_at own.old k q ++ (if nat_eq caller k then (if nat_eq checkable q then place ∷ [] else []) else [])) }
{
    own[caller as usize].push(alloc, checkable, place)
}

/// Adds an entry behind those of its checkable.
fn gather(
    alloc: Global,
    gathered: &mut BTreeMap<u32, Row<Entry>>,
    checkable: u32,
    entry: Entry,
) -> Result<(), OutOfMemory>
    ensures { (round : Histories) → checkable < length round → map segment_of gathered.old.entries ≡ segments_in round →
        OnOk result (map segment_of gathered.new.entries ≡ segments_in (with_entry checkable entry round)) }
{
    if let Some(entries) = gathered.get_mut(&checkable) {
        return entries.push(entry);
    }
    let mut entries = Vec::with_capacity(alloc, 1)?;
    entries.push(entry)?;
    gathered.insert(checkable, Row::from(entries))?;
    Ok(())
}
