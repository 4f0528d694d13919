//! Reads rows from standard input, and writes each with the typed site of its objects.
//!
//! The head of the file `stdin` says what a row is. Empty lines and those that begin with `#` are written as they are, so
//! that line N of the output is of line N of the input.
//!
//! In reading order: the objects and globals of a row (`given`), words and numbers (`words`), filters (`filters`), what stands in the
//! lists of a site (`lists`) and its periods (`periods`), the site as a whole (`whole`), and the answer (`asking`).
#![tactic(auto)]

mod asking;
mod filters;
mod given;
mod lists;
mod periods;
mod whole;
mod words;

use case_rows::{ANSWER, row_of};
use site_base::{OutOfMemory, Text};
use std::alloc::Global;
use std::io::{BufRead, BufReader};

fn main(rt: HostRuntime) -> anyhow::Result<()> {
    for line in BufReader::new(rt.alloc(), rt.reader())?.lines(rt.alloc()) {
        let told = told(rt.alloc(), line?.as_str())?;
        println!(rt; "{}", told.as_str())?;
    }
    Ok(())
}

/// The line, with the answer behind it if it is a row.
fn told(alloc: Global, line: &str) -> Result<Text, OutOfMemory> {
    let mut out = Text::copy_of(alloc, line)?;
    if let Some((word, row)) = row_of(line) {
        out.push_str(ANSWER)?;
        out.push_str(asking::answer(alloc, word, row)?.as_str())?;
    }
    Ok(out)
}
