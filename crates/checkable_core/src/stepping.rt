// How a status goes on by one event.
ghost use Rattle.std.specs.Prelude.{◌≡◌, ◌<◌, ◌≤◌, ◌-◌, ◌^◌, ◌++◌, ◌∷◌, [], List};
ghost use Rattle.site_model.specs.PlainSite.{check_view};
ghost use Rattle.site_model.specs.declared.entry.Entry.{Entry};
ghost use Rattle.run_meaning.specs.Acts.{is_taken};
ghost use Rattle.run_meaning.specs.Downtimes.{calls_from, is_live};
ghost use Rattle.check_state.specs.Stands.{StandsFor};
ghost use Rattle.downtime_book.specs.Contents.{StandsFor as HasCalls};
ghost use Rattle.checkable_core.specs.Drafts.{Drafts};

use crate::draft::Draft;
use check_state::Status;
use downtime_book::Book;
use site_base::Moment;
use site_model::{CheckSpec, Entry, Event};

/// What an event makes of a checkable that shows this, with these downtimes.
pub(crate) fn draft(
    status: &Status,
    book: &Book,
    spec: &CheckSpec,
    moment: Moment,
    event: &Event,
) -> Draft
    requires count { status.now.view.count < 2 ^ 64 - 1 }
    requires latest { book.now.latest ≤ moment }
    ensures { (h : List Entry) → StandsFor status.now (check_view spec.now) h → HasCalls book.now (calls_from (check_view spec.now) 1 h) →
        Drafts result (check_view spec.now) h moment event.now }
{
    let mut status = *status;
    let taken = step(&mut status, book, spec, moment, event);
    Draft { status, taken }
}

/// Takes an event, and tells whether it has an effect.
fn step(status: &mut Status, book: &Book, spec: &CheckSpec, moment: Moment, event: &Event) -> bool
    requires count { status.old.view.count < 2 ^ 64 - 1 }
    requires latest { book.now.latest ≤ moment }
    ensures taken { (h : List Entry) → StandsFor status.old (check_view spec.now) h → HasCalls book.now (calls_from (check_view spec.now) 1 h) →
        result ≡ is_taken is_live (check_view spec.now) h moment event.now }
    ensures stands { (h : List Entry) (e : Entry) → StandsFor status.old (check_view spec.now) h → e.event ≡ event.now → e.moment ≡ moment → e.taken ≡ result →
        StandsFor status.new (check_view spec.now) (h ++ e ∷ []) }
{
    match event {
        Event::Result { status: told, .. } => {
            status.step_result(spec, moment, *told);
            true
        }
        Event::Undown { number } => {
            let _ = status.step_switch(event);
            book.is_live(*number, moment)
        }
        _ => status.step_switch(event),
    }
}

/// Takes an entry as it is.
pub(crate) fn follow(status: &mut Status, spec: &CheckSpec, entry: &Entry)
    requires { status.old.view.count < 2 ^ 64 - 1 }
    ensures { (h : List Entry) → StandsFor status.old (check_view spec.now) h → StandsFor status.new (check_view spec.now) (h ++ entry.now ∷ []) }
{
    match &entry.event {
        Event::Result { status: told, .. } => status.step_result(spec, entry.moment, *told),
        _ => status.step_kept(&entry.event, entry.taken),
    }
}
