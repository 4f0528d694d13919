// What is decided on the notifications of a checkable at an entry.
ghost use Rattle.std.specs.Prelude.{◌≡◌, ◌<◌, ◌≤◌, List, IfOk, length, map};
ghost use Rattle.site_model.specs.PlainSite.{site_view};
ghost use Rattle.site_model.specs.declared.entry.Entry.{Entry};
ghost use Rattle.run_meaning.specs.Decisions.{decisions_of};
ghost use Rattle.run_meaning.specs.Reachability.{ancestors};
ghost use Rattle.depend_graph.specs.Graph.{IsGraphOf};
ghost use Rattle.depend_graph.specs.Outlooks.{holds_in, seen_as};
ghost use Rattle.checkable_core.specs.Contents.{check_at};
ghost use Rattle.checkable_core.specs.Drafts.{Drafts};
ghost use Rattle.checkable_core.specs.Keeping.{IsKept};

use crate::downtimes::in_effect_with;
use crate::draft::Draft;
use crate::running::Running;
use check_state::is_problem;
use depend_graph::{Graph, Purpose};
use notify_rules::{decide, decides};
use site_base::{Moment, OutOfMemory, Row};
use site_model::{Decision, Event, Site, View};
use std::alloc::Global;
use time_range::Zone;

/// What is decided on the notifications of a checkable at the entry of this event, of which this is the draft. What holds
/// them back is looked for only if there is something to decide.
///
/// # Errors
///
/// `OutOfMemory` if there is none for the decisions, or to look through the ancestors.
pub(crate) fn decisions(
    alloc: Global,
    site: &Site,
    graph: &Graph,
    zone: &Zone,
    checkable: u32,
    running: &Running,
    draft: &Draft,
    moment: Moment,
    event: &Event,
    sights: &[(u32, View)],
) -> Result<Row<Decision>, OutOfMemory>
    requires graph { IsGraphOf (site_view site.now) graph.now }
    requires checkable { checkable < length site.now.checkables }
    requires sights { map (λ s. s.0) sights.now ≡ ancestors (site_view site.now) checkable }
    requires latest { running.now.book.latest ≤ moment }
    ensures { (h : List Entry) (e : Entry) → IsKept (site_view site.now) checkable running.now h → Drafts draft.now (check_at (site_view site.now) checkable) h moment event.now →
        e.event ≡ event.now → e.moment ≡ moment → e.taken ≡ draft.now.taken →
        IfOk result (λ ds. ds ≡ decisions_of (site_view site.now) (holds_in (site_view site.now) zone.now) checkable (check_at (site_view site.now) checkable) h e (map seen_as sights.now)) }
{
    let before = running.status.view();
    let after = draft.status.view();
    if !decides(&running.sent, &before, &after, event, draft.taken) {
        return Ok(Row::new(alloc));
    }
    let downtime = in_effect_with(&running.book, moment, event, is_problem(after.state));
    let reach = graph.reach(site, checkable, sights, Purpose::Notes, moment, zone)?;
    decide(
        alloc,
        site,
        checkable,
        &before,
        &after,
        event,
        draft.taken,
        &running.sent,
        downtime,
        reach,
        moment,
        zone,
    )
}
