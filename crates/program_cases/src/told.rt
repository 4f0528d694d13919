// Rows and what the program gives for them.
use crate::case::Case;
use crate::limited::push_limited;
use crate::named::Named;
use crate::outcome::{push_live, push_outcome, push_statuses};
use crate::words::cut;
use site_base::{OutOfMemory, Text};
use std::sync::Wait;
use std::thread::Threads;

/// Adds what the program gives for a row.
pub(crate) fn push_told<T: Wait + Threads + Sync + Clone + Drop>(
    rt: &HostRuntime,
    threads: &T,
    named: &Named,
    out: &mut Text,
    row: &str,
) -> Result<(), OutOfMemory> {
    let (word, rest) = cut(row, ' ');
    let mut case = Case::new(rt.alloc());
    case.read(named, word, rest)?;
    push_case(rt, threads, out, word, &mut case)
}

/// Adds what a word asks of a case.
fn push_case<T: Wait + Threads + Sync + Clone + Drop>(
    rt: &HostRuntime,
    threads: &T,
    out: &mut Text,
    word: &str,
    case: &mut Case,
) -> Result<(), OutOfMemory> {
    match word {
        "run" | "check" | "objects" | "replay" | "value" => push_outcome(threads, out, case),
        "live" => push_live(rt, threads, out, case),
        "limit" => push_limited(out, case),
        "statuses" => push_statuses(out),
        _ => out.push_str("  →  no such row"),
    }
}
