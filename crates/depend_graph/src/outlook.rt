// What is known where a checkable is to be reached.
ghost use Rattle.std.specs.Prelude.{◌≡◌, ◌<◌, ◌||◌, ◌&&◌, length, option_to_list, slice_index, IfNone, IfSome, IsFalse, Some};
ghost use Rattle.site_model.specs.PlainSite.{site_view};
ghost use Rattle.run_meaning.specs.Turns.{of_index};
ghost use Rattle.run_meaning.specs.Reachability.{fails as fails_in, host_back as host_back_in, is_for, is_hard_down as is_hard_down_in, period_holds, view_among};
ghost use Rattle.depend_graph.specs.Outlooks.{meant_by, flagged, step_of, down_at, first_of, leads_back as leads_back_in, IsFit};
ghost use Rattle.depend_graph.specs.Parents.{has};
ghost use Rattle.depend_graph.specs.Reaching.{purpose_as, reach_as};

use crate::lists::Lists;
use crate::positions::Positions;
use crate::{Purpose, Reach};
use site_base::Moment;
use site_model::{DependSpec, Site, State, View};
use time_range::{Zone, inside};

/// What is known where a checkable is to be reached: the site and its dependencies that stand together, what the ancestors show, the
/// purpose and the moment.
#[derive(Drop)]
pub(crate) struct Outlook<'a> {
    pub(crate) site: &'a Site,
    pub(crate) leaders: &'a Lists,
    pub(crate) followers: &'a Lists,
    /// The ancestors, ascending.
    pub(crate) above: &'a [u32],
    /// Where each stands among them.
    pub(crate) positions: &'a Positions,
    /// What they show, in the same order.
    pub(crate) sights: &'a [(u32, View)],
    pub(crate) purpose: Purpose,
    pub(crate) moment: Moment,
    pub(crate) zone: &'a Zone,
}

impl<'a> Outlook<'a> {
    /// What holds a checkable back, where these of the ancestors are blocked.
    pub(crate) fn reach_at(&self, checkable: u32, blocked: &[bool]) -> Reach
        requires fit { IsFit self.now }
        requires length { length blocked.now ≡ length self.now.above.now }
        requires checkable { checkable < length (site_view self.now.site.now).checkables }
        ensures { reach_as result ≡ step_of (meant_by self.now) (flagged self.now.above.now blocked.now) checkable }
    {
        if let Some(depend) = self.first_back(checkable, blocked) {
            return Reach::Depend { depend };
        }
        let spec = &self.site.checkables.as_slice()[checkable as usize];
        self.host_back(spec.host, blocked)
    }

    /// Whether its host holds back a checkable that no dependency does. It holds back the notifications of a service, and no
    /// checks.
    fn host_back(&self, host: Option<u32>, blocked: &[bool]) -> Reach
        requires fit { IsFit self.now }
        requires length { length blocked.now ≡ length self.now.above.now }
        ensures { reach_as result ≡ host_back_in (meant_by self.now) (flagged self.now.above.now blocked.now) (purpose_as self.now.purpose) (option_to_list host) }
    {
        match (self.purpose, host) {
            (Purpose::Notes, Some(host)) if self.is_held_by(host, blocked) => {
                Reach::Host { checkable: host }
            }
            _ => Reach::Reachable,
        }
    }

    /// The first dependency of a checkable that holds it back.
    fn first_back(&self, checkable: u32, blocked: &[bool]) -> Option<u32>
        requires fit { IsFit self.now }
        requires length { length blocked.now ≡ length self.now.above.now }
        requires checkable { checkable < length (site_view self.now.site.now).checkables }
        ensures { result ≡ first_of (leads_back_in (meant_by self.now) (flagged self.now.above.now blocked.now) self.now.followers.now) (of_index checkable self.now.leaders.now) }
    {
        for depend in self.leaders.at(checkable as usize) {
            if self.leads_back(*depend, blocked) {
                return Some(*depend);
            }
        }
        None
    }

    /// Whether a dependency is down, and those that it leads are too.
    fn leads_back(&self, depend: u32, blocked: &[bool]) -> bool
        requires fit { IsFit self.now }
        requires length { length blocked.now ≡ length self.now.above.now }
        requires depend { depend < length (site_view self.now.site.now).depends }
        ensures { result ≡ leads_back_in (meant_by self.now) (flagged self.now.above.now blocked.now) self.now.followers.now depend }
    {
        if !self.is_down(depend, blocked) {
            return false;
        }
        for other in self.followers.at(depend as usize) {
            if !self.is_down(*other, blocked) {
                return false;
            }
        }
        true
    }

    /// Whether a dependency counts, and its parent is blocked or fails.
    fn is_down(&self, depend: u32, blocked: &[bool]) -> bool
        requires fit { IsFit self.now }
        requires length { length blocked.now ≡ length self.now.above.now }
        ensures { result ≡ down_at (meant_by self.now) (flagged self.now.above.now blocked.now) depend }
    {
        let Some(depend) = self.site.depends.as_slice().get(depend as usize) else {
            return false;
        };
        self.counts(depend) && self.lets_none_through(depend, blocked)
    }

    /// Whether a dependency counts for the purpose at the moment.
    fn counts(&self, depend: &DependSpec) -> bool
        ensures { result ≡ (is_for (meant_by self.now).purpose depend.now && period_holds (meant_by self.now).holds depend.now.period self.now.moment) }
    {
        let is_for = match self.purpose {
            Purpose::Checks => depend.checks,
            Purpose::Notes => depend.notes,
        };
        is_for && self.holds(depend.period)
    }

    /// Whether a period holds at the moment; it does if there is none.
    fn holds(&self, period: Option<u32>) -> bool
        ensures { result ≡ period_holds (meant_by self.now).holds period self.now.moment }
    {
        let Some(place) = period else {
            return true;
        };
        match self.site.periods.as_slice().get(place as usize) {
            Some(spec) => inside(spec, self.moment, self.zone),
            None => false,
        }
    }

    /// Whether the parent of a dependency is blocked or fails.
    fn lets_none_through(&self, depend: &DependSpec, blocked: &[bool]) -> bool
        requires fit { IsFit self.now }
        requires length { length blocked.now ≡ length self.now.above.now }
        ensures { result ≡ (flagged self.now.above.now blocked.now depend.now.parent || fails_in depend.now (view_among depend.now.parent (meant_by self.now).seen)) }
    {
        match self.place_of(depend.parent) {
            Some(place) => blocked[place] || fails(depend, &self.sights[place].1),
            None => false,
        }
    }

    /// Whether a host is blocked, or down for sure.
    fn is_held_by(&self, host: u32, blocked: &[bool]) -> bool
        requires fit { IsFit self.now }
        requires length { length blocked.now ≡ length self.now.above.now }
        ensures { result ≡ (flagged self.now.above.now blocked.now host || is_hard_down_in (view_among host (meant_by self.now).seen)) }
    {
        match self.place_of(host) {
            Some(place) => blocked[place] || is_hard_down(&self.sights[place].1),
            None => false,
        }
    }

    /// Where an ancestor stands among all of them; `None` of a checkable that is none.
    pub(crate) fn place_of(&self, checkable: u32) -> Option<usize>
        requires { IsFit self.now }
        ensures place { IfSome result (λ k. k < length self.now.above.now) }
        ensures number { IfSome result (λ k. slice_index self.now.above.now k ≡ checkable) }
        ensures none { IfNone result (IsFalse (has checkable self.now.above.now)) }
    {
        self.positions.get(checkable)
    }
}

/// Whether a parent that shows this doesn't let the child of a dependency through.
fn fails(depend: &DependSpec, view: &View) -> bool
    ensures { result ≡ fails_in depend.now (Some view.now) }
{
    view.has_result && (view.hard || !depend.ignore_soft) && !depend.states.has(view.state)
}

/// Whether a host that shows this is down for sure.
fn is_hard_down(view: &View) -> bool
    ensures { result ≡ is_hard_down_in (Some view.now) }
{
    view.hard && !matches!(view.state, State::Okay | State::Up)
}
