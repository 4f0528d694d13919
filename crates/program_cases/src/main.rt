//! Runs the rows of tables, and says which of them the program doesn't answer as they are written.
//!
//! Standard input has the names of the tables, which lie in data/: each has the rows of one subject, with the answer that is
//! wanted right below or after each row (the head of `data/words.rows` says how rows are written). A row is a command line, with
//! files and a world in memory and calls that fail, or with files in memory over the real world, or a log of a limited number of
//! turns. For each table a line is written, `NAME: N rows as written`, and above it each row that has another answer, with that one.
#![tactic(auto)]

mod case;
mod gated;
mod heard;
mod limited;
mod named;
mod outcome;
mod scene;
mod table;
mod told;
mod words;

use crate::table::{run_table, say_of};
use site_edge::{DiskFiles, Files};
use std::io::{BufRead, BufReader};
use std::sync::Wait;
use std::thread::Threads;

fn main(rt: HostRuntime) -> anyhow::Result<()> {
    let threads = rt.clone()?;
    // All names are read first: over the real world standard input has then ended.
    let names = names_of(&rt)?;
    for name in &names {
        run_named(&rt, &threads, name.as_str())?;
    }
    Ok(())
}

/// The lines of standard input.
fn names_of(rt: &HostRuntime) -> anyhow::Result<Vec<String>> {
    let mut names = Vec::new(rt.alloc());
    for line in BufReader::new(rt.alloc(), rt.reader())?.lines(rt.alloc()) {
        names.push(line?)?;
    }
    Ok(names)
}

/// Runs the rows of a table in a file.
fn run_named<T: Wait + Threads + Sync + Clone + Drop>(
    rt: &HostRuntime,
    threads: &T,
    name: &str,
) -> anyhow::Result<()> {
    match DiskFiles::new(rt).read(name) {
        Ok(Some(text)) => run_table(rt, threads, name, text.as_slice()),
        _ => say_of(rt, name, "can't be read"),
    }
}
