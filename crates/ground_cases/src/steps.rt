// Steps over a wheel.
ghost use Rattle.std.specs.Prelude.{◌≡◌};
ghost use Rattle.wheel_links.specs.Members.{capacity_of};

use site_base::{Moment, OutOfMemory, Text};
use std::str::SplitWhitespace;
use std::sync::ledger::Ledger;
use wheel_links::{Absent, Present, Steps, Wheel};

/// The next word as a number of 32 bits.
pub(crate) fn small(words: &mut SplitWhitespace<'_>) -> Option<u32> {
    words.next()?.parse::<u32>().ok()
}

/// The next word as a moment.
fn moment(words: &mut SplitWhitespace<'_>) -> Option<Moment> {
    Moment::of(words.next()?.parse::<u64>().ok()?)
}

/// Adds what a step answers over a wheel of this capacity.
pub(crate) fn push_step<L: Ledger>(
    out: &mut Text,
    wheel: &mut Wheel,
    capacity: u32,
    step: &str,
    counter: &mut Steps<L>,
) -> Result<(), OutOfMemory>
    requires { capacity_of wheel.old ≡ capacity }
    ensures { capacity_of wheel.new ≡ capacity }
{
    let mut words = step.split_whitespace();
    match words.next().unwrap_or("") {
        "count" => out.push_decimal(u64::from(wheel.len())),
        "due" => push_due(out, wheel, &mut words),
        word => push_change(out, wheel, capacity, word, &mut words, counter),
    }
}

fn push_due(
    out: &mut Text,
    wheel: &Wheel,
    words: &mut SplitWhitespace<'_>,
) -> Result<(), OutOfMemory> {
    let Some(moment) = moment(words) else {
        return out.push_str("no such moment");
    };
    match wheel.due(moment) {
        Some(id) => out.push_decimal(u64::from(id)),
        None => out.push_str("none"),
    }
}

/// Adds what a change answers.
fn push_change<L: Ledger>(
    out: &mut Text,
    wheel: &mut Wheel,
    capacity: u32,
    word: &str,
    words: &mut SplitWhitespace<'_>,
    counter: &mut Steps<L>,
) -> Result<(), OutOfMemory>
    requires { capacity_of wheel.old ≡ capacity }
    ensures { capacity_of wheel.new ≡ capacity }
{
    let id = match small(words) {
        Some(id) if id < capacity => id,
        _ => return out.push_str("no such id"),
    };
    match (word, moment(words)) {
        ("remove", _) => push_old(out, wheel.remove(id, counter)),
        ("move", Some(moment)) => push_old(out, wheel.move_to(id, moment, counter)),
        ("place", Some(moment)) => match wheel.place(id, moment, counter) {
            Ok(()) => out.push_str("placed"),
            Err(Present) => out.push_str("Present"),
        },
        _ => out.push_str("no such step"),
    }
}

/// Adds the moment that a member had.
fn push_old(out: &mut Text, old: Result<Moment, Absent>) -> Result<(), OutOfMemory> {
    match old {
        Ok(moment) => out.push_decimal(moment.secs()),
        Err(Absent) => out.push_str("Absent"),
    }
}
