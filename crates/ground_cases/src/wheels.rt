// A row: the sizes of a wheel, and steps over it.
ghost use Rattle.std.specs.Prelude.{◌≡◌, ◌<◌};
ghost use Rattle.wheel_links.specs.Members.{capacity_of};

use crate::steps::{push_step, small};
use site_base::{OutOfMemory, Text};
use std::alloc::Global;
use std::marker::Brand;
use std::sync::ledger::{Blank, Ledger};
use wheel_links::{Steps, Wheel};

/// Adds what the steps of a row answer, one after another over a new wheel.
pub(crate) fn push_wheel(alloc: Global, out: &mut Text, row: &str) -> Result<(), OutOfMemory> {
    let row = Text::copy_of(alloc, row)?;
    let answers = answers(alloc, &row)?;
    out.push_str(answers.as_str())
}

fn answers(alloc: Global, row: &Text) -> Result<Text, OutOfMemory> {
    answers_counting::<Brand>(alloc, row, Blank::new(1))
}

/// The same, with a counter for the steps through links.
fn answers_counting<L: Ledger>(alloc: Global, row: &Text, blank: Blank) -> Result<Text, OutOfMemory>
    requires name { blank.name ≡ L.name }
    requires parts { blank.parts ≡ L.parts }
    requires any { 0 < blank.parts }
{
    let (sizes, steps) = row.as_str().split_once(':').unwrap_or((row.as_str(), ""));
    let mut sizes = sizes.split_whitespace();
    let (Some(capacity), Some(slots)) = (small(&mut sizes), small(&mut sizes)) else {
        return Text::copy_of(alloc, "no such wheel");
    };
    if capacity == u32::MAX || slots == 0 {
        return Text::copy_of(alloc, "no such wheel");
    }
    let mut wheel = Wheel::new(alloc, capacity, slots)?;
    let mut out = Text::new(alloc);
    let mut counter = Steps::<L>::new(blank);
    push_all(&mut out, &mut wheel, capacity, steps, &mut counter)?;
    Ok(out)
}

/// Adds the answers with commas between them.
fn push_all<L: Ledger>(
    out: &mut Text,
    wheel: &mut Wheel,
    capacity: u32,
    steps: &str,
    counter: &mut Steps<L>,
) -> Result<(), OutOfMemory>
    requires { capacity_of wheel.old ≡ capacity }
{
    let mut is_first = true;
    for step in steps.split(';') {
        if !is_first {
            out.push_str(", ")?;
        }
        is_first = false;
        push_step(out, wheel, capacity, step, counter)?;
    }
    Ok(())
}
