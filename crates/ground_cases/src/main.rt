//! Reads rows from standard input, and writes each with what the crates give that know nothing of the configuration language:
//! numbers, moments, texts, lists and trees, time ranges, zones, periods, books of downtimes, wheels, and the schema of objects.
//!
//! A row is a word and what it asks of (the head of the file `stdin` says which words there are). Empty lines and those that
//! begin with `#` are written as they are, so that line N of the output is of line N of the input.
#![tactic(auto)]

mod answers;
mod books;
mod numbers;
mod periods;
mod ranges;
mod steps;
mod texts;
mod trees;
mod types;
mod wheels;
mod zone_files;
mod zones;

use case_rows::{ANSWER, row_of};
use site_base::{OutOfMemory, Text};
use std::alloc::Global;
use std::io::{BufRead, BufReader};
use std::thread::Builder;

/// How much stack the rows have: far less than a call for each level of a deep tree would take.
const STACK: usize = 1 << 20;

fn main(rt: HostRuntime) -> anyhow::Result<()> {
    for line in BufReader::new(rt.alloc(), rt.reader())?.lines(rt.alloc()) {
        let alloc = rt.alloc();
        let line = line?;
        let row = Builder::new()
            .stack_size(STACK)
            .spawn(&rt, move || told(alloc, line.as_str()))?;
        let told = row.join(&rt)?;
        println!(rt; "{}", told.as_str())?;
    }
    Ok(())
}

/// The line, with the answer behind it if it is a row.
fn told(alloc: Global, line: &str) -> Result<Text, OutOfMemory> {
    let mut out = Text::copy_of(alloc, line)?;
    if let Some((word, text)) = row_of(line) {
        out.push_str(ANSWER)?;
        answers::push_answer(alloc, &mut out, word, text)?;
    }
    Ok(out)
}
