// The log of a limited number of turns.
use crate::case::Case;
use crate::outcome::{push_output, push_started, push_status};
use crate::scene::Scene;
use run_text::Style;
use site_base::{OutOfMemory, Text};
use site_edge::{Files, MemWorld, Sink, World};
use site_load::config_answer;
use site_phases::Answer;
use site_run::{NoFeed, OneWorker, Status, write_log};
use std::alloc::Global;
use turn_engine::Engine;

/// No row takes more turns.
const MOST: u64 = 1_000;

/// Writes the log of a world in memory over the site of a row's files, of which so many turns are taken at most, and adds the status, the
/// lines and the orders that were started.
pub(crate) fn push_limited(out: &mut Text, case: &mut Case) -> Result<(), OutOfMemory> {
    match case.mem_world()? {
        Some(mut world) => {
            push_log(out, case, &mut world)?;
            push_started(out, world.started())
        }
        None => out.push_str("  →  no such world"),
    }
}

fn push_log(out: &mut Text, case: &mut Case, world: &mut MemWorld) -> Result<(), OutOfMemory> {
    let mut scene = Scene::of(case);
    let Some((limit, root)) = limit_and_root(case.words.as_slice()) else {
        return out.push_str("  →  no limit and root");
    };
    let status = limited(
        case.alloc,
        limit,
        root,
        &mut scene.files,
        world,
        &mut scene.sink,
    );
    push_ended(out, status, scene.sink.written())
}

fn limit_and_root(words: &[Text]) -> Option<(u64, &str)> {
    match words {
        [limit, root] => Some((limit.as_str().parse::<u64>().ok()?, root.as_str())),
        _ => None,
    }
}

/// Adds with what a log ended, and its lines.
fn push_ended(out: &mut Text, status: Option<Status>, written: &[u8]) -> Result<(), OutOfMemory> {
    let Some(status) = status else {
        return out.push_str("  →  no site");
    };
    out.push_str("  →  ")?;
    push_status(out, status)?;
    push_output(out, written)
}

/// With what such a log ends; `None` if there is no site.
fn limited<F: Files, W: World, S: Sink>(
    alloc: Global,
    limit: u64,
    root: &str,
    files: &mut F,
    world: &mut W,
    sink: &mut S,
) -> Option<Status> {
    let limit = limit.min(MOST);
    match config_answer(alloc, files, root) {
        Ok(Answer::Site(site)) => {
            let Ok(mut engine) = Engine::new(alloc, site) else {
                return Some(Status::OutOfMemory);
            };
            let mut feed = NoFeed::new(alloc);
            Some(write_log(
                alloc,
                &OneWorker,
                Style::One,
                &mut engine,
                &mut feed,
                world,
                sink,
                limit,
            ))
        }
        Ok(Answer::Diags { .. }) => None,
        Err(_) => None,
    }
}
