//! Reads rows from standard input, and writes each with what no command line shows of loads and of items: what they cost, what they
//! come to within so many steps and units, which objects they read, and what they come to if not all objects are told.
//!
//! The head of the file `stdin` says what a row is. Empty lines and those that begin with `#` are written as they are, so
//! that line N of the output is of line N of the input.
#![tactic(auto)]

mod asking;
mod bodies;
mod items;
mod scene;
mod shown;
mod walked;

use case_rows::{ANSWER, row_of};
use site_base::{OutOfMemory, Text};
use std::alloc::Global;
use std::io::{BufRead, BufReader};

fn main(rt: HostRuntime) -> anyhow::Result<()> {
    for line in BufReader::new(rt.alloc(), rt.reader())?.lines(rt.alloc()) {
        let told = told(rt.alloc(), line?.as_str())?;
        println!(rt; "{}", told.as_str())?;
    }
    Ok(())
}

/// The line, with the answer after it if it is a row.
fn told(alloc: Global, line: &str) -> Result<Text, OutOfMemory> {
    let mut out = Text::copy_of(alloc, line)?;
    if let Some((word, row)) = row_of(line) {
        out.push_str(ANSWER)?;
        asking::push_answer(alloc, &mut out, word, row)?;
    }
    Ok(out)
}
