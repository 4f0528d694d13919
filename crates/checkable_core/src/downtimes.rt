// What entries do to downtimes.
ghost use Rattle.std.specs.Prelude.{◌≡◌, ◌≤◌, ◌++◌, ◌∷◌, [], List, OnOk, OnErr, false, if◌then◌else◌};
ghost use Rattle.site_model.specs.PlainSite.{PlainCheck};
ghost use Rattle.site_model.specs.declared.entry.Entry.{Entry};
ghost use Rattle.run_meaning.specs.Downtimes.{call_in, calls_from, in_effect};
ghost use Rattle.downtime_book.specs.Calls.{Call, cancelled};
ghost use Rattle.downtime_book.specs.Contents.{StandsFor};
ghost use Rattle.checkable_core.specs.Keeping.{IsProblemOf, moves_downtimes};

use downtime_book::{Book, NoDowntime};
use site_base::{Moment, OutOfMemory};
use site_model::Event;

/// Enters what the event of the entry of this number does to downtimes, where `problem` tells of a result whether it is a
/// problem.
///
/// # Errors
///
/// `OutOfMemory` if there is none for a new downtime; the book is then as before.
pub(crate) fn enter(
    book: &mut Book,
    number: u64,
    moment: Moment,
    event: &Event,
    taken: bool,
    problem: bool,
) -> Result<(), OutOfMemory>
    requires { book.old.latest ≤ moment }
    ensures ok { OnOk result ((check : PlainCheck) (calls : List Call) → IsProblemOf check event.now problem → StandsFor book.old calls →
        StandsFor book.new (calls ++ call_in check number moment event.now taken)) }
    ensures latest { OnOk result (book.new.latest ≤ moment) }
    ensures err { OnErr result (book.new ≡ book.old) }
{
    match event {
        Event::Down {
            start,
            end,
            fixed,
            duration,
        } => book.add(number, *start, *end, *fixed, *duration),
        Event::Result { .. } => {
            book.on_result(moment, problem);
            Ok(())
        }
        Event::Undown { number } => {
            leave(book, *number, moment, taken);
            Ok(())
        }
        _ => Ok(()),
    }
}

/// Takes the downtime of this number away, where its end was taken.
fn leave(book: &mut Book, number: u64, moment: Moment, taken: bool)
    requires { book.old.latest ≤ moment }
    ensures stands { (calls : List Call) → StandsFor book.old calls → StandsFor book.new (calls ++ (if taken then cancelled number moment ∷ [] else [])) }
    ensures latest { book.new.latest ≤ moment }
{
    if taken {
        take_away(book, number, moment);
    }
}

/// Takes the downtime of this number away, also where it is past, or never was.
fn take_away(book: &mut Book, number: u64, moment: Moment)
    requires { book.old.latest ≤ moment }
    ensures stands { (calls : List Call) → StandsFor book.old calls → StandsFor book.new (calls ++ cancelled number moment ∷ []) }
    ensures latest { book.new.latest ≡ moment }
{
    match book.cancel(number, moment) {
        Ok(()) => {}
        Err(NoDowntime) => book.on_result(moment, false),
    }
}

/// The downtime in effect with the entry of an event that neither begins one nor ends one.
pub(crate) fn in_effect_with(
    book: &Book,
    moment: Moment,
    event: &Event,
    problem: bool,
) -> Option<u64>
    requires { book.now.latest ≤ moment }
    ensures { (check : PlainCheck) (h : List Entry) (e : Entry) → StandsFor book.now (calls_from check 1 h) → IsProblemOf check event.now problem →
        e.event ≡ event.now → e.moment ≡ moment → moves_downtimes event.now ≡ false → result ≡ in_effect check (h ++ e ∷ []) moment }
{
    match event {
        Event::Result { .. } => book.in_effect_after(moment, problem),
        _ => book.in_effect(moment),
    }
}
