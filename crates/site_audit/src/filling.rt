// The lines of a turn.
ghost use Rattle.std.specs.Prelude.{◌≡◌, ◌≤◌, ◌++◌, [], length, Some, None, IfOk, IfSome, OnOk, MatchOption};
ghost use Rattle.site_audit.specs.Commands.{refused_with};
ghost use Rattle.site_audit.specs.Filling.{filled, gap_to, one_filled};

use crate::block::RefusedLine;
use crate::refused::refused_line;
use site_base::{Blob, OutOfMemory, Row, Text};
use std::alloc::Global;

/// The lines of a turn, of which these are refused: each stands at its number, and the told ones fill the other numbers. `None` if a
/// number is 0, above the count, or doesn't rise, or if a refused line can't be had. The host and the checkable are those that
/// `refused_line` names.
pub(crate) fn fill(
    alloc: Global,
    host: &Option<Text>,
    closed: &Option<Text>,
    refused: &[RefusedLine],
    told: &[Blob],
) -> Result<Option<Row<Blob>>, OutOfMemory>
    ensures { IfOk result (λ lines. lines ≡ filled (refused_with host.now closed.now) refused.now (record { lines = []; left = told.now })) }
{
    let mut lines = Row::new(alloc);
    let mut left = told;
    for one in refused {
        let Some(behind) = fill_one(alloc, host, closed, one, left, &mut lines)? else {
            return Ok(None);
        };
        left = behind;
    }
    add_all(alloc, left, &mut lines)?;
    Ok(Some(lines))
}

/// Adds told lines up to a refused one, and that; gives the told ones that are left.
fn fill_one<'a>(
    alloc: Global,
    host: &Option<Text>,
    closed: &Option<Text>,
    refused: &RefusedLine,
    told: &'a [Blob],
    lines: &mut Row<Blob>,
) -> Result<Option<&'a [Blob]>, OutOfMemory>
    ensures { IfOk result (λ r. MatchOption r (one_filled (refused_with host.now closed.now) refused.now (record { lines = lines.old; left = told.now }) ≡ None)
        (λ left. one_filled (refused_with host.now closed.now) refused.now (record { lines = lines.old; left = told.now }) ≡ Some (record { lines = lines.new; left = left.now }))) }
{
    let Some(gap) = gap_before(refused.number, lines.len(), told.len()) else {
        return Ok(None);
    };
    let Some(line) = refused_line(alloc, host, closed, refused.fault)? else {
        return Ok(None);
    };
    let (before, behind) = told.split_at(gap);
    add_all(alloc, before, lines)?;
    lines.push(line)?;
    Ok(Some(behind))
}

/// How many told lines stand between so many lines and the one of this number.
fn gap_before(number: u64, so_far: usize, left: usize) -> Option<usize>
    ensures gap { result ≡ gap_to number so_far left }
    ensures within { IfSome result (λ gap. gap ≤ left) }
{
    let so_far = so_far as u64;
    if number <= so_far {
        return None;
    }
    let gap = number - so_far - 1;
    if gap > left as u64 {
        None
    } else {
        Some(gap as usize)
    }
}

fn add_all(alloc: Global, more: &[Blob], lines: &mut Row<Blob>) -> Result<(), OutOfMemory>
    ensures { OnOk result (lines.new ≡ lines.old ++ more.now) }
{
    for line in more {
        lines.push(Blob::copy_of(alloc, line.as_slice())?)?;
    }
    Ok(())
}
