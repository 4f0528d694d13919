// The rows so far, with the reports of their programs.
use case_rows::{ANSWER, is_row, push_marked, unmarked};
use site_base::{Blob, OutOfMemory, Row, Text};
use site_edge::{Order, Report, Turn};
use std::alloc::Global;
use std::collections::BTreeMap;
use std::str;

/// So many bytes of an output are written.
const SHOWN: usize = 60;

/// The lines so far, and the reports by the numbers of the lines, from 1 on.
#[derive(Drop)]
pub struct Runs {
    alloc: Global,
    lines: Vec<Blob>,
    reports: BTreeMap<u64, Report>,
}

impl Runs {
    pub fn new(alloc: Global) -> Runs {
        Runs {
            alloc,
            lines: Vec::new(alloc),
            reports: BTreeMap::new(alloc),
        }
    }

    /// Takes a turn of the world, and gives an order for each row in it.
    pub fn take(&mut self, turn: Turn) -> Result<Vec<Order>, OutOfMemory> {
        for report in turn.reports.into_vec() {
            self.reports.insert(report.order, report)?;
        }
        let mut orders = Vec::new(self.alloc);
        for line in turn.lines.into_vec() {
            let number = (self.lines.len() as u64).saturating_add(1);
            let text = text_of(line.as_slice());
            if is_row(text) {
                orders.push(order_of(self.alloc, number, text)?)?;
            }
            self.lines.push(line)?;
        }
        Ok(orders)
    }

    /// Writes each line, with the answer behind it if it is a row.
    pub fn write<R: Print>(&self, rt: &R) -> anyhow::Result<()> {
        let mut number = 0u64;
        for line in &self.lines {
            number = number.saturating_add(1);
            let text = text_of(line.as_slice());
            match self.reports.get(&number) {
                Some(report) => {
                    let answer = answer_of(self.alloc, report)?;
                    println!(rt; "{text}{ANSWER}{}", answer.as_str())?;
                }
                None => println!(rt; "{text}")?,
            }
        }
        Ok(())
    }
}

/// The text of bytes, or a comment where they are none.
fn text_of(bytes: &[u8]) -> &str {
    str::from_utf8(bytes).unwrap_or("# no text")
}

/// The order to run a row's words.
fn order_of(alloc: Global, number: u64, text: &str) -> Result<Order, OutOfMemory> {
    let mut argv = Row::new(alloc);
    for word in text.split_whitespace() {
        argv.push(unmarked(alloc, word)?)?;
    }
    Ok(Order { number, argv })
}

/// A report's status, how many bytes of output there are, and the first of them.
fn answer_of(alloc: Global, report: &Report) -> Result<Text, OutOfMemory> {
    let bytes = report.output.as_slice();
    let (status, count) = (report.status, bytes.len());
    let mut out = Text::of_string(alloc, format!(in alloc; "{status} {count} ")?)?;
    push_marked(&mut out, text_of(&bytes[..count.min(SHOWN)]))?;
    Ok(out)
}
