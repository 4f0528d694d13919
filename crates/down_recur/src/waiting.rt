// What waits for its next segment.
ghost use Rattle.std.specs.Prelude.{◌≡◌, ◌+◌, ◌-◌, ◌≤◌, ◌++◌, [], Some, IfOk, OnOk};
ghost use Rattle.down_recur.specs.Giving.{due_at, is_triggered as triggered_in, lead as lead_of, lines_of};
ghost use Rattle.down_recur.specs.Turns.{HasBooks, after_in, lines_in, site_of};
ghost use Rattle.down_recur.specs.Waiting.{IsWaiting};
ghost use Rattle.down_recur.specs.Due.{IsQuiet};
ghost use Rattle.site_posts.specs.Books.{histories_of};

use crate::line::line;
use crate::looking::{Found, Window, look};
use crate::turn::Turn;
use crate::{Booking, Recurring, Segment};
use site_base::{Blob, Moment, OutOfMemory};
use std::alloc::Global;

/// The seconds of a day.
const DAY: u64 = 86_400;

/// What recurs, and when it is looked at again.
#[derive(Drop)]
pub(crate) struct Waiting {
    pub(crate) recurring: Recurring,
    /// The last moment at which it was looked at.
    seen: Moment,
    /// Nothing begins before this second that isn't done and ends after `seen`.
    next: u64,
    /// At this second a segment ends that waits for the trigger. Before it no look is needed as long as the trigger has no downtime in effect.
    closes: u64,
}

impl Waiting {
    /// It is looked at at the first turn.
    pub(crate) fn new(recurring: Recurring) -> Waiting
        ensures recurring { result.recurring ≡ recurring }
        ensures next { result.next ≡ 0 }
    {
        Waiting {
            recurring,
            seen: Moment::of(0).unwrap(),
            next: 0,
            closes: 0,
        }
    }

    /// Gives the lines of what is due at a turn.
    pub(crate) fn give(&mut self, out: &mut Vec<Blob>, turn: &Turn<'_>) -> Result<(), OutOfMemory>
        requires books { HasBooks turn.now }
        requires waiting { IsWaiting turn.now.zone.now self.old }
        ensures lines { OnOk result (out.new.items ≡ out.old.items ++ lines_in turn.now self.old.recurring) }
        ensures after { OnOk result (self.new.recurring ≡ after_in turn.now self.old.recurring) }
        ensures waiting { IsWaiting turn.now.zone.now self.new }
        ensures seen { OnOk result (self.new.seen ≤ turn.now.moment) }
    {
        if turn.moment.secs() < self.closes && !is_triggered(turn, self.recurring.trigger) {
            self.rest(turn.moment, 0);
            return Ok(());
        }
        self.look(out, turn)
    }

    /// The same by a look at what is due.
    fn look(&mut self, out: &mut Vec<Blob>, turn: &Turn<'_>) -> Result<(), OutOfMemory>
        requires books { HasBooks turn.now }
        requires waiting { IsWaiting turn.now.zone.now self.old }
        ensures lines { OnOk result (out.new.items ≡ out.old.items ++ lines_in turn.now self.old.recurring) }
        ensures after { OnOk result (self.new.recurring ≡ after_in turn.now self.old.recurring) }
        ensures waiting { IsWaiting turn.now.zone.now self.new }
        ensures seen { OnOk result (self.new.seen ≤ turn.now.moment) }
    {
        let till = turn.moment.secs() + lead(self.recurring.trigger);
        let found = self.recurring.due(turn, till)?;
        self.settle(out, turn, till, &found)
    }

    /// The same where these segments are due, which begin up to a second.
    fn settle(
        &mut self,
        out: &mut Vec<Blob>,
        turn: &Turn<'_>,
        till: u64,
        found: &Found,
    ) -> Result<(), OutOfMemory>
        requires books { HasBooks turn.now }
        requires waiting { IsWaiting turn.now.zone.now self.old }
        requires till { till ≡ turn.now.moment + lead_of self.old.recurring.trigger }
        requires few { till ≤ 100_000_086_399 }
        requires due { found.now.due.items ≡ due_at turn.now.zone.now turn.now.moment self.old.recurring }
        requires next { IsQuiet turn.now.zone.now self.old.recurring.spans (till + 1) turn.now.moment found.now.next }
        requires none { found.now.due.items ≡ [] → IsQuiet turn.now.zone.now self.old.recurring.spans self.old.recurring.done turn.now.moment found.now.next }
        ensures lines { OnOk result (out.new.items ≡ out.old.items ++ lines_in turn.now self.old.recurring) }
        ensures after { OnOk result (self.new.recurring ≡ after_in turn.now self.old.recurring) }
        ensures waiting { IsWaiting turn.now.zone.now self.new }
        ensures seen { OnOk result (self.new.seen ≤ turn.now.moment) }
    {
        if found.due.is_empty() {
            self.rest(turn.moment, found.next);
            return Ok(());
        }
        if !is_triggered(turn, self.recurring.trigger) {
            self.rest(turn.moment, 0);
            self.closes = found.due[0].end.secs();
            return Ok(());
        }
        push_lines(turn.alloc, out, turn.moment, &self.recurring, &found.due)?;
        self.recurring.done = till + 1;
        self.rest(turn.moment, found.next);
        Ok(())
    }

    /// The second before which nothing is due.
    pub(crate) fn rests_until(&self) -> u64
        ensures { result ≡ self.now.next - lead_of self.now.recurring.trigger }
    {
        self.next.saturating_sub(lead(self.recurring.trigger))
    }

    /// Takes note of a look at a moment, before which second nothing more begins.
    fn rest(&mut self, moment: Moment, next: u64)
        ensures recurring { self.new.recurring ≡ self.old.recurring }
        ensures seen { self.new.seen ≡ moment }
        ensures next { self.new.next ≡ next }
    {
        self.seen = moment;
        self.next = next;
    }
}

impl Recurring {
    /// The segments that are due at a turn, which begin up to a second.
    fn due(&self, turn: &Turn<'_>, till: u64) -> Result<Found, OutOfMemory>
        requires { till ≡ turn.now.moment + lead_of self.now.trigger }
        ensures due { IfOk result (λ f. f.due.items ≡ due_at turn.now.zone.now turn.now.moment self.now) }
        ensures next { IfOk result (λ f. IsQuiet turn.now.zone.now self.now.spans (till + 1) turn.now.moment f.next) }
        ensures none { IfOk result (λ f. f.due.items ≡ [] → IsQuiet turn.now.zone.now self.now.spans self.now.done turn.now.moment f.next) }
    {
        let window = Window {
            from: self.done,
            till,
        };
        look(
            turn.alloc,
            turn.zone,
            self.spans.as_slice(),
            window,
            turn.moment,
        )
    }
}

/// How many seconds ahead of a moment segments are given.
fn lead(trigger: Option<u32>) -> u64
    ensures value { result ≡ lead_of trigger }
    ensures within { result ≤ 86_400 }
{
    match trigger {
        None => DAY,
        Some(_) => 0,
    }
}

/// Whether the checkable by whose downtimes it is triggered, if there is one, has a downtime in effect.
fn is_triggered(turn: &Turn<'_>, trigger: Option<u32>) -> bool
    requires { HasBooks turn.now }
    ensures { result ≡ triggered_in (site_of turn.now) (histories_of turn.now.books.now) turn.now.moment trigger }
{
    match trigger {
        None => true,
        Some(checkable) => has_downtime(turn, checkable),
    }
}

fn has_downtime(turn: &Turn<'_>, checkable: u32) -> bool
    requires { HasBooks turn.now }
    ensures { result ≡ triggered_in (site_of turn.now) (histories_of turn.now.books.now) turn.now.moment (Some checkable) }
{
    match turn.books.get(checkable as usize) {
        Some(book) => book.in_effect(turn.moment).is_some(),
        None => false,
    }
}

/// Adds the lines of segments that are given at a moment.
fn push_lines(
    alloc: Global,
    out: &mut Vec<Blob>,
    moment: Moment,
    recurring: &Recurring,
    segments: &[Segment],
) -> Result<(), OutOfMemory>
    ensures { OnOk result (out.new.items ≡ out.old.items ++ lines_of moment recurring.now segments.now) }
{
    for segment in segments {
        let booking = Booking::of(recurring, moment, *segment);
        out.push(line(alloc, moment, recurring, booking)?)?;
    }
    Ok(())
}
