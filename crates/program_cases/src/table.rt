// Tables of rows with the answers that are wanted.
use crate::named::Named;
use crate::told::push_told;
use site_base::{OutOfMemory, Text};
use std::alloc::Global;
use std::str;
use std::sync::Wait;
use std::thread::Threads;

/// What a row's answer begins with.
const ANSWER: &str = "  →";

/// What was told of a table so far.
#[derive(Drop)]
struct Told {
    named: Named,
    /// The last row with its answer, as the table has it.
    wanted: Text,
    /// The same row with the answer that the program gives.
    came: Text,
    rows: u64,
    differing: u64,
}

/// Runs the rows of a table, and writes those that have another answer, and how many rows there are.
pub(crate) fn run_table<T: Wait + Threads + Sync + Clone + Drop>(
    rt: &HostRuntime,
    threads: &T,
    name: &str,
    bytes: &[u8],
) -> anyhow::Result<()> {
    let Ok(text) = str::from_utf8(bytes) else {
        return say_of(rt, name, "no text");
    };
    let mut table = Told {
        named: Named::new(rt.alloc()),
        wanted: Text::new(rt.alloc()),
        came: Text::new(rt.alloc()),
        rows: 0,
        differing: 0,
    };
    table.run(rt, threads, text)?;
    table.say_summary(rt, name)
}

/// Writes a line on the table of this name.
pub(crate) fn say_of(rt: &HostRuntime, name: &str, what: &str) -> anyhow::Result<()> {
    println!(rt; "{name}: {what}")?;
    Ok(())
}

impl Told {
    /// Takes all lines of a table.
    fn run<T: Wait + Threads + Sync + Clone + Drop>(
        &mut self,
        rt: &HostRuntime,
        threads: &T,
        text: &str,
    ) -> anyhow::Result<()> {
        for line in text.split('\n') {
            self.take(rt, threads, line)?;
        }
        self.compare(rt)
    }

    /// Takes a line: it begins with two blanks if it is one of an answer.
    fn take<T: Wait + Threads + Sync + Clone + Drop>(
        &mut self,
        rt: &HostRuntime,
        threads: &T,
        line: &str,
    ) -> anyhow::Result<()> {
        if line.starts_with("  ") {
            self.add_wanted(line)?;
            return Ok(());
        }
        self.compare(rt)?;
        self.begin(rt.alloc(), line)?;
        if is_row(line) {
            push_told(
                rt,
                threads,
                &self.named,
                &mut self.came,
                without_answer(line),
            )?;
        }
        Ok(())
    }

    /// Adds a line of the last row's answer.
    fn add_wanted(&mut self, line: &str) -> Result<(), OutOfMemory> {
        self.wanted.push('\n')?;
        self.wanted.push_str(line)
    }

    /// Writes what the program gives for the last row, if it isn't what is wanted.
    fn compare(&mut self, rt: &HostRuntime) -> anyhow::Result<()> {
        if self.wanted == self.came {
            return Ok(());
        }
        self.differing = self.differing.saturating_add(1);
        rt.println(self.came.as_str())?;
        Ok(())
    }

    /// Takes a line that begins with no blanks: a row, whose answer is still to be added, the definition of a text, or any other.
    fn begin(&mut self, alloc: Global, line: &str) -> Result<(), OutOfMemory> {
        self.wanted = Text::copy_of(alloc, line)?;
        if is_row(line) {
            self.rows = self.rows.saturating_add(1);
            self.came = Text::copy_of(alloc, without_answer(line))?;
            return Ok(());
        }
        self.came = self.wanted.clone()?;
        self.named.take(alloc, line)
    }

    /// Writes `NAME: N rows as written`, or `NAME: M of N rows have another answer`.
    fn say_summary(&self, rt: &HostRuntime, name: &str) -> anyhow::Result<()> {
        let mut said = Text::new(rt.alloc());
        self.push_summary(&mut said)?;
        say_of(rt, name, said.as_str())
    }

    fn push_summary(&self, said: &mut Text) -> Result<(), OutOfMemory> {
        if self.differing > 0 {
            said.push_decimal(self.differing)?;
            said.push_str(" of ")?;
        }
        said.push_decimal(self.rows)?;
        said.push_str(if self.differing > 0 {
            " rows have another answer"
        } else {
            " rows as written"
        })
    }
}

/// Whether a line is a row, and neither empty nor a comment nor the definition of a text.
fn is_row(line: &str) -> bool {
    !line.is_empty()
        && !line.starts_with('#')
        && !line.starts_with("text ")
        && !line.starts_with("| ")
}

/// A row without its answer.
fn without_answer(line: &str) -> &str {
    line.split_once(ANSWER).map_or(line, |(row, _)| row)
}
