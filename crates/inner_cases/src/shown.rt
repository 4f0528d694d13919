// Objects, faults, reads and budgets in the words of answers.
use eval_meaning::Read;
use eval_work::Stop;
use site_base::{Diag, ItemNo, OutOfMemory, TargetNo, Text, Texts, push_quoted};
use site_model::Object;
use site_text::{print_diag, print_object};
use std::alloc::Global;

/// The number of what is no item's.
pub(crate) const NO_NUMBER: ItemNo = ItemNo {
    item: 0,
    target: TargetNo {
        item: 0,
        host: 0,
        key: 0,
    },
    key: 0,
};

/// Adds an object as the listing has it.
pub(crate) fn push_object(
    alloc: Global,
    out: &mut Text,
    object: &Object,
) -> Result<(), OutOfMemory> {
    let line = print_object(alloc, object)?;
    out.push_str(line.as_str().trim_end())
}

/// Adds why an evaluation ended early: a diagnostic, or the read that isn't decided.
pub(crate) fn push_stop(
    alloc: Global,
    out: &mut Text,
    stop: Stop,
    files: &Texts,
) -> Result<(), OutOfMemory> {
    match stop {
        Stop::Memory => Err(OutOfMemory),
        Stop::Blocked(read) => {
            out.push_str("blocked on ")?;
            push_read(out, &read)
        }
        Stop::Fault { place, kind, text } => {
            let fault = Diag {
                number: NO_NUMBER,
                place,
                kind,
                text,
            };
            push_diag(alloc, out, &fault, files)
        }
    }
}

/// Adds the line of a diagnostic.
pub(crate) fn push_diag(
    alloc: Global,
    out: &mut Text,
    diag: &Diag,
    files: &Texts,
) -> Result<(), OutOfMemory> {
    if diag.place.file as usize >= files.len() {
        return out.push_str("in no file");
    }
    let line = print_diag(alloc, diag, files)?;
    out.push_str(line.as_str().trim_end())
}

/// Adds a read: its type and its quoted name.
pub(crate) fn push_read(out: &mut Text, read: &Read) -> Result<(), OutOfMemory> {
    out.push_str(read.kind.as_str())?;
    out.push(' ')?;
    push_quoted(out, read.name.as_str())
}

/// Adds steps and units of space.
pub(crate) fn push_budget(out: &mut Text, steps: u64, space: u64) -> Result<(), OutOfMemory> {
    out.push_decimal(steps)?;
    out.push_str(" steps, ")?;
    out.push_decimal(space)?;
    out.push_str(" units")
}
