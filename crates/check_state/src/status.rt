// The running status of a checkable.
ghost use Rattle.std.specs.Prelude.{◌≡◌, ◌<◌, ◌≤◌, ◌-◌, ◌^◌, ◌+◌, ◌++◌, ◌∷◌, [], ℕ, List, None, min, nat_lt, not, ◌&&◌, Bool, if◌then◌else◌};
ghost use Rattle.site_model.specs.PlainSite.{PlainCheck, check_view};
ghost use Rattle.site_model.specs.declared.entry.Entry.{Entry};
ghost use Rattle.run_meaning.specs.View.{status_in, has_effect, hard_at, flapping_at, same_state, is_hard_problem as hard_problem, is_problem as problem};
ghost use Rattle.check_state.specs.Stands.{StandsFor, IsResult, IsSwitch};

use crate::acks::{ack_after, is_on};
use crate::changes::Changes;
use crate::states::{is_problem, is_same, state_at, unchecked};
use site_base::Moment;
use site_model::{Ack, CheckSpec, Event, State, View};

/// What the entries of one host or service show so far, without the entries themselves: its state,
/// whether that is HARD, the attempt, when it changed, the acknowledgement in force and the switches
/// (Icinga 2 documentation, Monitoring Basics, "Hard and Soft States").
#[derive(Clone, Copy)]
pub struct Status {
    view: View,
    /// How many results at the end are problems, and at most the attempts that make one HARD.
    problems: u32,
    /// `enable_active_checks` and `enable_notifications`.
    active: bool,
    notify: bool,
    changes: Changes,
}

impl Status {
    /// The status before any entry: well, HARD, at attempt 1, with the switches as they are set.
    pub fn new(spec: &CheckSpec) -> Status
        ensures stands { StandsFor result (check_view spec.now) [] }
    {
        Status {
            view: View {
                count: 0,
                has_result: false,
                state: unchecked(spec.host),
                hard: true,
                attempt: 1,
                change: Moment::of(0).unwrap(),
                ack: Ack::Off,
                checks_on: spec.active,
                notes_on: spec.notify,
                flapping: false,
            },
            problems: 0,
            active: spec.active,
            notify: spec.notify,
            changes: Changes::none(),
        }
    }

    /// Takes a result of this status, from 0 to 3, at a moment. The specification is that of `new`.
    pub fn step_result(&mut self, spec: &CheckSpec, moment: Moment, status: u8)
        requires count { self.old.view.count < 2 ^ 64 - 1 }
        ensures stands { (h : List Entry) (e : Entry) → StandsFor self.old (check_view spec.now) h → IsResult e moment status → StandsFor self.new (check_view spec.now) (h ++ e ∷ []) }
    {
        let before = self.view;
        let state = state_at(spec.host, status);
        let problems = problems_after(self.problems, spec.max, is_problem(state));
        let hard = is_hard(spec, is_problem(state), problems);
        let change = change_after(&before, state, hard, moment);
        let changes = self.changes.with(is_change(&before, state));
        self.problems = problems;
        self.changes = changes;
        self.view = View {
            count: before.count + 1,
            has_result: true,
            state,
            hard,
            attempt: attempt_at(is_problem(state), problems),
            change,
            ack: ack_after(before.state, state, before.ack),
            checks_on: before.checks_on,
            notes_on: before.notes_on,
            flapping: flapping_after(spec, changes.value(), before.flapping),
        };
    }

    /// Takes any other event, and tells whether it had an effect: `false` exactly for an acknowledgement
    /// without a problem, and for the end of one where none is in force.
    pub fn step_switch(&mut self, event: &Event) -> bool
        requires count { self.old.view.count < 2 ^ 64 - 1 }
        requires switch { status_in event.now ≡ None }
        ensures effect { result ≡ has_effect self.old.view event.now }
        ensures stands { (c : PlainCheck) (h : List Entry) (e : Entry) → StandsFor self.old c h → IsSwitch e event.now result → StandsFor self.new c (h ++ e ∷ []) }
    {
        let taken = takes_effect(&self.view, event);
        self.step_kept(event, taken);
        taken
    }

    /// Takes any event but a result as an entry tells it: an acknowledgement or the end of one is taken or void as the
    /// entry says.
    pub fn step_kept(&mut self, event: &Event, taken: bool)
        requires count { self.old.view.count < 2 ^ 64 - 1 }
        requires switch { status_in event.now ≡ None }
        ensures stands { (c : PlainCheck) (h : List Entry) (e : Entry) → StandsFor self.old c h → IsSwitch e event.now taken → StandsFor self.new c (h ++ e ∷ []) }
    {
        self.view.count += 1;
        match event {
            Event::Ack { sticky, .. } => {
                if taken {
                    self.view.ack = if *sticky { Ack::Sticky } else { Ack::Normal };
                }
            }
            Event::Unack => {
                if taken {
                    self.view.ack = Ack::Off;
                }
            }
            Event::Checks { on } => self.view.checks_on = self.active && *on,
            Event::Notes { on } => self.view.notes_on = self.notify && *on,
            _ => {}
        }
    }

    /// What others see of the checkable.
    pub fn view(&self) -> View
        ensures { result ≡ self.now.view }
    {
        self.view
    }
}

/// How many results at the end are problems after one more, at most `most`.
fn problems_after(before: u32, most: u32, problem: bool) -> u32
    ensures { (n : ℕ) → before ≡ min n most → result ≡ (if problem then min (n + 1) most else 0) }
{
    if !problem {
        0
    } else if before < most {
        before + 1
    } else {
        most
    }
}

/// Whether a checkable with so many problem results at the end is HARD.
fn is_hard(spec: &CheckSpec, problem: bool, problems: u32) -> bool
    ensures { (n : ℕ) → problems ≡ min n spec.now.max → problem ≡ nat_lt 0 n → result ≡ hard_at (check_view spec.now) n }
{
    spec.volatile || !problem || problems >= spec.max
}

/// When a checkable last became a HARD problem or changed its state as one, after a result with this state.
fn change_after(before: &View, state: State, hard: bool, moment: Moment) -> Moment
    ensures { result ≡ (if hard_problem hard state && not (hard_problem before.now.hard before.now.state && same_state before.now.state state) then moment else before.now.change) }
{
    if is_hard_problem(hard, state) && !is_still(before, state) {
        moment
    } else {
        before.change
    }
}

fn is_hard_problem(hard: bool, state: State) -> bool
    ensures { result ≡ hard_problem hard state }
{
    hard && is_problem(state)
}

/// Whether the view is a HARD problem of this very state.
fn is_still(view: &View, state: State) -> bool
    ensures { result ≡ (hard_problem view.now.hard view.now.state && same_state view.now.state state) }
{
    is_hard_problem(view.hard, view.state) && is_same(view.state, state)
}

/// Whether a result with this state has one with another state before it.
fn is_change(before: &View, state: State) -> bool
    ensures { result ≡ (before.now.has_result && not (same_state before.now.state state)) }
{
    before.has_result && !is_same(before.state, state)
}

/// Whether a checkable flaps at this value, as it did before.
fn flapping_after(spec: &CheckSpec, value: u64, before: bool) -> bool
    ensures { (was : Bool) → before ≡ (spec.now.flapping && was) → result ≡ (spec.now.flapping && flapping_at (check_view spec.now) value was) }
{
    spec.flapping && (value > spec.high || (value >= spec.low && before))
}

/// Whether an event has an effect where a checkable is seen so.
fn takes_effect(view: &View, event: &Event) -> bool
    ensures { result ≡ has_effect view.now event.now }
{
    match event {
        Event::Ack { .. } => is_problem(view.state),
        Event::Unack => is_on(view.ack),
        _ => true,
    }
}

/// The attempt after a result, with so many problems at the end.
fn attempt_at(problem: bool, problems: u32) -> u32
    ensures { result ≡ (if problem then problems else 1) }
{
    if problem { problems } else { 1 }
}
