// What a row asks for.
ghost use Rattle.dsl_load.specs.Loads.{IsLoad};
ghost use Rattle.eval_work.specs.Kept.{PairsNamed};

use crate::bodies::{push_reads, push_within};
use crate::items::{last_item, push_item, view_over};
use crate::scene::Scene;
use crate::shown::{push_budget, push_stop};
use dsl_load::{LoadParts, eval_files, run_files};
use eval_work::{Budget, Item, Stop};
use site_base::{OutOfMemory, Text};
use std::alloc::Global;

/// Adds the answer to a row.
pub(crate) fn push_answer(
    alloc: Global,
    out: &mut Text,
    word: &str,
    row: &str,
) -> Result<(), OutOfMemory> {
    let (budget, row) = if word == "within" {
        limited(row)
    } else {
        (Budget::of_item(), row)
    };
    push_row(alloc, out, word, budget, row, &mut Scene::new(alloc))
}

/// Adds the answer to a row, which is read into an empty scene.
fn push_row(
    alloc: Global,
    out: &mut Text,
    word: &str,
    budget: Budget,
    row: &str,
    scene: &mut Scene,
) -> Result<(), OutOfMemory> {
    if !scene.read(alloc, row)? {
        return out.push_str("no such row");
    }
    match push_asked(alloc, out, scene, word, budget) {
        Ok(()) => Ok(()),
        Err(stop) => push_stop(alloc, out, stop, &scene.names),
    }
}

/// Adds what a word asks of a scene.
fn push_asked(
    alloc: Global,
    out: &mut Text,
    scene: &mut Scene,
    word: &str,
    budget: Budget,
) -> Result<(), Stop> {
    if word == "spent" {
        return push_spent(alloc, out, scene);
    }
    let mut parts = eval_files(alloc, &scene.files, &scene.order)?;
    push_loaded(alloc, out, scene, word, budget, &mut parts)
}

/// The same of a word that asks of the last object of a load.
fn push_loaded(
    alloc: Global,
    out: &mut Text,
    scene: &mut Scene,
    word: &str,
    budget: Budget,
    parts: &mut LoadParts,
) -> Result<(), Stop>
    requires { IsLoad parts.old }
{
    match last_item(parts) {
        Some(item) => push_last(alloc, out, scene, word, budget, parts, item),
        None => Ok(out.push_str("no object")?),
    }
}

/// The steps, the units and how many nodes may be open, with which a row begins, and what follows them.
fn limited(row: &str) -> (Budget, &str) {
    let mut numbers = [0u64; 3];
    let mut words = row.splitn(4, ' ');
    for number in &mut numbers {
        *number = words.next().unwrap_or("").parse::<u64>().unwrap_or(0);
    }
    let [steps, space, depth] = numbers;
    let budget = Budget {
        steps,
        space,
        depth: u32::try_from(depth).unwrap_or(0),
    };
    (budget, words.next().unwrap_or(""))
}

/// Adds how many steps and units of space a load takes.
fn push_spent(alloc: Global, out: &mut Text, scene: &Scene) -> Result<(), Stop> {
    let (steps, space) = left_after(alloc, scene)?;
    let whole = Budget::of_load();
    let steps = whole.steps.saturating_sub(steps);
    push_budget(out, steps, whole.space.saturating_sub(space))?;
    Ok(())
}

/// The steps and the units of space that a load leaves.
fn left_after(alloc: Global, scene: &Scene) -> Result<(u64, u64), Stop> {
    let work = run_files(alloc, &scene.files, &scene.order)?;
    Ok((work.steps, work.space))
}

/// Adds what the last object of a load comes to.
fn push_last(
    alloc: Global,
    out: &mut Text,
    scene: &mut Scene,
    word: &str,
    budget: Budget,
    parts: &LoadParts,
    mut item: Item,
) -> Result<(), Stop>
    requires load { IsLoad parts.now }
    requires captured { PairsNamed parts.now.store item.captured.items }
{
    item.presets.append(&mut scene.presets)?;
    item.names.append(&mut scene.bound)?;
    let view = view_over(parts, &scene.objects, &scene.known);
    match word {
        "item" => push_item(alloc, out, &view, &item, &scene.names),
        "reads" => push_reads(alloc, out, &view, &item),
        _ => push_within(alloc, out, &view, &item, budget),
    }
}
