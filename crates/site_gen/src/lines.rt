// The lines that tell counts.
ghost use Rattle.std.specs.Prelude.{◌≡◌, IfOk};
ghost use Rattle.site_gen.specs.Lines.{count_line as line_of, count_lines};

use crate::counts::Counts;
use site_base::{OutOfMemory, Row, Text, Texts};
use std::alloc::Global;

/// The lines that tell how many objects a site has and what is counted of its run, each with its newline.
///
/// # Errors
///
/// `OutOfMemory` if there is none for them.
pub fn lines_of(alloc: Global, objects: u64, counts: &Counts) -> Result<Texts, OutOfMemory>
    ensures { IfOk result (λ lines. lines ≡ count_lines objects counts.now) }
{
    let mut lines = Row::new(alloc);
    lines.push(count_line(alloc, "objects ", objects)?)?;
    lines.push(count_line(alloc, "entries ", counts.entries)?)?;
    lines.push(count_line(alloc, "sent ", counts.sent)?)?;
    lines.push(count_line(alloc, "suppressed ", counts.suppressed)?)?;
    lines.push(count_line(alloc, "orders ", counts.orders)?)?;
    Ok(lines)
}

/// The line that tells one count, of what this says.
fn count_line(alloc: Global, what: &str, count: u64) -> Result<Text, OutOfMemory>
    ensures { IfOk result (λ t. t ≡ line_of what.now count) }
{
    let mut line = Text::copy_of(alloc, what)?;
    line.push_decimal(count)?;
    line.push('\n')?;
    Ok(line)
}
