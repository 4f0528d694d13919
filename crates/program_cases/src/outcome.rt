// What the program gives.
use crate::case::Case;
use crate::gated::Held;
use crate::scene::Scene;
use live_world::LiveWorld;
use site_base::{Blob, OutOfMemory, Text, push_quoted};
use site_edge::{Order, World};
use site_program::Status;
use std::str;
use std::sync::Wait;
use std::thread::Threads;

/// How the line of an object ends that isn't to be written with a short row.
const SILENT: &str = "\"vars\":{\"silent\":true}}";

/// All statuses.
const STATUSES: [Status; 9] = [
    Status::Done,
    Status::Diagnosed,
    Status::Usage,
    Status::ReadFault,
    Status::WriteFault,
    Status::WorldFault,
    Status::OutOfMemory,
    Status::TurnsSpent,
    Status::NotLegal,
];

/// Runs the program as a case says, and adds what it comes to, and the orders that were started, a line each.
pub(crate) fn push_outcome<T: Wait + Threads + Sync>(
    turns: &T,
    out: &mut Text,
    case: &mut Case,
) -> Result<(), OutOfMemory> {
    match case.mem_world()? {
        Some(mut world) => {
            push_run(turns, out, case, &mut world)?;
            push_started(out, world.started())
        }
        None => out.push_str("  →  no such world"),
    }
}

/// Runs the program as a case says, but over the clock, standard input and check programs, and adds what it comes to.
pub(crate) fn push_live<T: Wait + Threads + Sync + Clone + Drop>(
    rt: &HostRuntime,
    threads: &T,
    out: &mut Text,
    case: &mut Case,
) -> Result<(), OutOfMemory> {
    let mut world = LiveWorld::new(rt.clone()?, threads.clone()?)?;
    push_run(threads, out, case, &mut world)
}

/// Runs the program as a case says over files and a sink in memory, of whose calls these fail, and a world, and adds what it comes to.
fn push_run<T: Wait + Threads + Sync, W: World>(
    turns: &T,
    out: &mut Text,
    case: &mut Case,
    world: &mut W,
) -> Result<(), OutOfMemory> {
    let mut scene = Scene::of(case);
    let status = scene.run(turns, case, world);
    if case.is_short {
        push_short(out, status, scene.sink.written())
    } else {
        push_ended(out, status, case, &scene)
    }
}

/// Adds the status and, each on a line of its own, the lines of the output.
fn push_ended(
    out: &mut Text,
    status: Status,
    case: &Case,
    scene: &Scene,
) -> Result<(), OutOfMemory> {
    out.push_str("  →  ")?;
    push_status(out, status)?;
    push_late(out, &case.held)?;
    if case.remarks {
        push_heard(out, scene.heard.lines())?;
    }
    push_written(out, scene.sink.written(), case.either.as_slice())
}

/// Adds what was remarked, a line each.
fn push_heard(out: &mut Text, remarks: &[Text]) -> Result<(), OutOfMemory> {
    for remark in remarks {
        push_line(out, "\n  remarked ", remark.as_str())?;
    }
    Ok(())
}

/// Adds a text after what a line begins with.
fn push_line(out: &mut Text, begin: &str, text: &str) -> Result<(), OutOfMemory> {
    out.push_str(begin)?;
    out.push_str(text)
}

/// Adds a line if a worker was held up for too long.
fn push_late(out: &mut Text, held: &Held) -> Result<(), OutOfMemory> {
    if held.is_late() {
        out.push_str("\n  a worker was held up for too long")?;
    }
    Ok(())
}

/// Adds the lines that were written, or says that they are one of these outputs.
fn push_written(out: &mut Text, written: &[u8], either: &[Blob]) -> Result<(), OutOfMemory> {
    if is_one_of(written, either) {
        out.push_str("\n  either")
    } else {
        push_output(out, written)
    }
}

fn is_one_of(written: &[u8], either: &[Blob]) -> bool {
    for text in either {
        if text.as_slice() == written {
            return true;
        }
    }
    false
}

/// Adds the lines that were written.
pub(crate) fn push_output(out: &mut Text, written: &[u8]) -> Result<(), OutOfMemory> {
    match str::from_utf8(written) {
        Ok(text) => push_lines(out, text),
        Err(_) => out.push_str("\n  no text"),
    }
}

/// Adds what the program writes: one line after the row, or more lines below it. The status stands before them if it is
/// neither `Done` nor `Diagnosed`.
fn push_short(out: &mut Text, status: Status, written: &[u8]) -> Result<(), OutOfMemory> {
    out.push_str("  →")?;
    if !matches!(status, Status::Done | Status::Diagnosed) {
        out.push_str("  ")?;
        push_status(out, status)?;
    }
    match str::from_utf8(written) {
        Ok(text) => push_brief(out, text),
        Err(_) => out.push_str("\n  no text"),
    }
}

/// Adds one line after the row, or more lines below it, without the objects that are to be silent.
fn push_brief(out: &mut Text, text: &str) -> Result<(), OutOfMemory> {
    let is_alone = text.split('\n').filter(|line| is_told(line)).count() == 1;
    for line in text.split('\n') {
        push_told_line(out, is_alone, line)?;
    }
    Ok(())
}

fn push_told_line(out: &mut Text, is_alone: bool, line: &str) -> Result<(), OutOfMemory> {
    if !is_told(line) {
        Ok(())
    } else if is_alone {
        push_line(out, "  ", value_in(line))
    } else {
        push_line(out, "\n  ", line)
    }
}

/// Whether a line is written with a short row.
fn is_told(line: &str) -> bool {
    !line.is_empty() && !line.ends_with(SILENT)
}

/// The value of the attribute `r`, if a line is that of the object `value`, and else the line.
fn value_in(line: &str) -> &str {
    match line.strip_prefix("Zone \"value\" {\"name\":\"value\",\"r\":") {
        Some(value) => value.strip_suffix('}').unwrap_or(value),
        None => line,
    }
}

/// Adds a status as its number and name.
pub(crate) fn push_status(out: &mut Text, status: Status) -> Result<(), OutOfMemory> {
    out.push_decimal(u64::from(status.number()))?;
    out.push(' ')?;
    out.push_str(status.name())
}

/// Adds each line after two blanks; `…` follows a piece without a newline.
fn push_lines(out: &mut Text, text: &str) -> Result<(), OutOfMemory> {
    for line in text.split_terminator('\n') {
        push_line(out, "\n  ", line)?;
    }
    if text.is_empty() || text.ends_with('\n') {
        Ok(())
    } else {
        out.push('…')
    }
}

/// Adds each order with its words, quoted, on a line of its own.
pub(crate) fn push_started(out: &mut Text, orders: &[Order]) -> Result<(), OutOfMemory> {
    for order in orders {
        push_order(out, order)?;
    }
    Ok(())
}

fn push_order(out: &mut Text, order: &Order) -> Result<(), OutOfMemory> {
    out.push_str("\n  started ")?;
    out.push_decimal(order.number)?;
    for word in order.argv.as_slice() {
        push_word(out, word.as_str())?;
    }
    Ok(())
}

fn push_word(out: &mut Text, word: &str) -> Result<(), OutOfMemory> {
    out.push(' ')?;
    push_quoted(out, word)
}

/// Adds all statuses.
pub(crate) fn push_statuses(out: &mut Text) -> Result<(), OutOfMemory> {
    for status in &STATUSES {
        out.push_str("\n  ")?;
        push_status(out, *status)?;
    }
    Ok(())
}
