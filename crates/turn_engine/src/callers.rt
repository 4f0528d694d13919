// The round of a turn that several workers take.
ghost use Rattle.std.specs.Prelude.{◌≡◌, ◌<◌, ◌≤◌, ◌==◌, true, All, drop, length, map, IfErr, IfOk};
ghost use Rattle.std.specs.List.{list_all};
ghost use Rattle.depend_graph.specs.Graph.{IsGraphOf};
ghost use Rattle.run_laws.specs.Idle.{AreIdle};
ghost use Rattle.run_meaning.specs.Alone.{AreOnSite};
ghost use Rattle.site_model.specs.PlainSite.{site_view};
ghost use Rattle.site_posts.specs.Books.{AreBooks};
ghost use Rattle.site_posts.specs.Many.{IsRoundOf, asked_in};
ghost use Rattle.turn_engine.specs.Sole.{IsSole};

use checkable_core::Checkable;
use depend_graph::Graph;
use post_turn::Gate;
use site_base::{Moment, OutOfMemory};
use site_model::Site;
use site_posts::{Act, Segments, round_many, round_one};
use std::alloc::Global;
use std::sync::Wait;
use std::thread::Threads;
use time_range::Zone;

/// The round of these lists, one for each caller. If the first caller alone has acts, it is made as one caller makes it, and no thread
/// is made; the gate isn't entered then.
pub(crate) fn round_of<R: Wait + Threads + Sync, G: Gate + Sync>(
    rt: &R,
    alloc: Global,
    site: &Site,
    graph: &Graph,
    zone: &Zone,
    books: &mut Vec<Checkable>,
    moment: Moment,
    lists: Vec<Vec<Act>>,
    gate: &G,
) -> Result<Segments, OutOfMemory>
    requires graph { IsGraphOf (site_view site.now) graph.now }
    requires books { AreBooks (site_view site.now) moment books.old.items }
    requires callers { (0 < length lists.items) × (length lists.items ≤ 64) }
    requires acts { All (AreOnSite (site_view site.now)) (map asked_in lists.items) }
    ensures { IfOk result (IsRoundOf (site_view site.now) zone.now moment books.old.items books.new.items (map asked_in lists.items)) }
{
    match first_alone(lists) {
        Ok(acts) => round_one(alloc, site, graph, zone, books, moment, acts),
        Err(lists) => round_many(rt, alloc, site, graph, zone, books, moment, lists, gate),
    }
}

/// The acts of the first caller, if no other has any. If another has some, the lists as they are.
fn first_alone(mut lists: Vec<Vec<Act>>) -> Result<Vec<Act>, Vec<Vec<Act>>>
    requires { 0 < length lists.items }
    ensures sole { IfOk result (λ acts. IsSole acts lists.items) }
    ensures others { IfErr result (λ same. same ≡ lists) }
{
    if is_sole(lists.as_slice()) {
        Ok(lists.remove(0))
    } else {
        Err(lists)
    }
}

/// Whether no caller but the first has acts.
fn is_sole(lists: &[Vec<Act>]) -> bool
    requires { 0 < length lists.now }
    ensures { result ≡ true → AreIdle (map asked_in (drop 1 lists.now)) }
{
    are_empty(others(lists))
}

/// The lists after the first.
fn others(lists: &[Vec<Act>]) -> &[Vec<Act>]
    requires { 0 < length lists.now }
    ensures { result.now ≡ drop 1 lists.now }
{
    lists.split_at(1).1
}

fn are_empty(lists: &[Vec<Act>]) -> bool
    ensures { result ≡ list_all (λ list. length list.items == 0) lists.now }
{
    lists.iter().all(|list| list.is_empty())
}
