// A round of several callers.
ghost use Rattle.std.specs.Prelude.{◌≡◌, ◌<◌, ◌≤◌, All, Contains, length, map, IfOk};
ghost use Rattle.site_model.specs.PlainSite.{site_view};
ghost use Rattle.run_meaning.specs.Alone.{AreOnSite};
ghost use Rattle.depend_graph.specs.Graph.{IsGraphOf};
ghost use Rattle.site_posts.specs.Books.{AreBooks, histories_of};
ghost use Rattle.site_posts.specs.Made.{asked_of};
ghost use Rattle.site_posts.specs.Many.{IsRoundOf, asked_in};
ghost use Rattle.site_posts.specs.Outlooks.{AreJobs, AreOutlooks, Ascends, IsJobOf, asked_by};

use crate::act::Act;
use crate::ahead::{Outlook, outlook_of};
use crate::hall::{Deeds, Hall, Wanted, all_in};
use crate::lending::{bases_of, put_back, take_out};
use crate::segment::Segments;
use crate::setting::Setting;
use crate::touched::touched_by;
use checkable_core::Checkable;
use depend_graph::Graph;
use post_rounds::{Job, Opened, close_all, open_all};
use post_turn::Gate;
use site_base::{Moment, OutOfMemory, Row};
use site_model::Site;
use std::alloc::Global;
use std::sync::Wait;
use std::thread::Threads;
use time_range::Zone;

/// Takes the acts of several callers at a moment, each caller its own in their order and all callers at the same time, and gives the
/// entries that checkables get of them. Each entry is made by what its caller has seen of the ancestors of its checkable when it is
/// made. The books are the checkables of the site, one each by index, and have no entry after the moment. A caller that acts on a
/// checkable enters the gate at Inside and at Outside of its index.
///
/// It takes a time that grows with the acts, with the ancestors of their checkables and the downtimes of these checkables that aren't past,
/// with the callers for each of these checkables, and with the logarithm of how many there are. If no more than one caller has acts no
/// thread is made.
///
/// # Errors
///
/// `OutOfMemory` if there is too little memory for the callers, an entry, its sights or the answer. The books are then spent.
pub fn round_many<R: Wait + Threads + Sync, G: Gate + Sync>(
    rt: &R,
    alloc: Global,
    site: &Site,
    graph: &Graph,
    zone: &Zone,
    books: &mut Vec<Checkable>,
    moment: Moment,
    lists: Vec<Vec<Act>>,
    gate: &G,
) -> Result<Segments, OutOfMemory>
    requires graph { IsGraphOf (site_view site.now) graph.now }
    requires books { AreBooks (site_view site.now) moment books.old.items }
    requires callers { (0 < length lists.items) × (length lists.items ≤ 64) }
    requires acts { All (AreOnSite (site_view site.now)) (map asked_in lists.items) }
    ensures { IfOk result (IsRoundOf (site_view site.now) zone.now moment books.old.items books.new.items (map asked_in lists.items)) }
{
    let setting = Setting {
        alloc,
        site,
        graph,
        zone,
        moment,
    };
    let touched = touched_by(alloc, lists.as_slice())?;
    let outlooks = outlooks_of(&setting, books.as_slice(), touched.as_slice())?;
    let jobs = jobs_of(alloc, touched.as_slice(), outlooks.as_slice(), lists)?;
    let taken = take_out(alloc, books, touched.as_slice())?;
    let bases = bases_of(&setting, touched.as_slice(), taken)?;
    let Opened { posts, callers } = open_all(alloc, bases, jobs)?;
    let hall = Hall {
        posts,
        deeds: Deeds { moment, outlooks },
    };
    let hands = all_in(rt, alloc, &hall, gate, callers)?;
    let Hall { posts, deeds: _ } = hall;
    let ended = close_all(alloc, posts, hands)?;
    put_back(alloc, books, touched.as_slice(), ended)
}

/// The outlook of each of these checkables.
fn outlooks_of(
    setting: &Setting,
    books: &[Checkable],
    touched: &[u32],
) -> Result<Vec<Outlook>, OutOfMemory>
    requires graph { IsGraphOf (site_view setting.now.site.now) setting.now.graph.now }
    requires books { AreBooks (site_view setting.now.site.now) setting.now.moment books.now }
    requires ascends { Ascends touched.now }
    requires within { All (λ k. k < length (site_view setting.now.site.now).checkables) touched.now }
    ensures { IfOk result (λ outlooks. AreOutlooks (site_view setting.now.site.now) (histories_of books.now) touched.now outlooks.items) }
{
    let mut outlooks = Vec::with_capacity(setting.alloc, touched.len())?;
    for checkable in touched {
        outlooks.push(outlook_of(setting, books, touched, *checkable)?)?;
    }
    Ok(outlooks)
}

/// The jobs of each caller.
fn jobs_of(
    alloc: Global,
    touched: &[u32],
    outlooks: &[Outlook],
    lists: Vec<Vec<Act>>,
) -> Result<Vec<Vec<Job<Wanted>>>, OutOfMemory>
    requires ascends { Ascends touched.now }
    requires outlooks { length outlooks.now ≡ length touched.now }
    requires acts { All (λ list. All (λ act. Contains touched.now act.checkable) list.items) lists.items }
    ensures { IfOk result (λ jobs. AreJobs touched.now outlooks.now (map asked_in lists.items) jobs.items) }
{
    let mut all = Vec::with_capacity(alloc, lists.len())?;
    for list in lists {
        let jobs = jobs_in(alloc, touched, outlooks, list)?;
        all.push(jobs)?;
    }
    Ok(all)
}

/// The jobs of one caller.
fn jobs_in(
    alloc: Global,
    touched: &[u32],
    outlooks: &[Outlook],
    list: Vec<Act>,
) -> Result<Vec<Job<Wanted>>, OutOfMemory>
    requires ascends { Ascends touched.now }
    requires outlooks { length outlooks.now ≡ length touched.now }
    requires acts { All (λ act. Contains touched.now act.checkable) list.items }
    ensures asked { IfOk result (λ jobs. map (asked_by touched.now) jobs.items ≡ asked_in list) }
    ensures each { IfOk result (λ jobs. All (IsJobOf touched.now outlooks.now) jobs.items) }
{
    let mut jobs = Vec::with_capacity(alloc, list.len())?;
    for act in list {
        let job = job_of(alloc, touched, outlooks, act)?;
        jobs.push(job)?;
    }
    Ok(jobs)
}

/// The job of an act: a look at each ancestor that has a post, and the event.
fn job_of(
    alloc: Global,
    touched: &[u32],
    outlooks: &[Outlook],
    act: Act,
) -> Result<Job<Wanted>, OutOfMemory>
    requires ascends { Ascends touched.now }
    requires outlooks { length outlooks.now ≡ length touched.now }
    requires act { Contains touched.now act.checkable }
    ensures { IfOk result (λ job. IsJobOf touched.now outlooks.now job × (asked_by touched.now job ≡ asked_of act)) }
{
    let Act { checkable, event } = act;
    let Ok(at) = touched.binary_search(&checkable) else {
        unreachable!()
    };
    let post = at as u32;
    let looks = Vec::from_slice(alloc, outlooks[at].posts.as_slice())?;
    Ok(Job {
        post,
        looks: Row::from(looks),
        want: Wanted { post, event },
    })
}
