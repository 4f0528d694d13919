// Reading sights.
ghost use Rattle.std.specs.Prelude.{◌≡◌, length};
ghost use Rattle.log_text.specs.EntryReading.{sight_at};
ghost use Rattle.log_text.specs.Fronts.{list_at, parts_within, Gives};
ghost use Rattle.log_text.specs.SiteNames.{names_view};

use crate::fields::{behind, read_name, read_number, strip};
use crate::{EntryError, SiteNames};
use site_base::Row;
use site_model::Sight;
use std::alloc::Global;

/// What was seen.
pub(crate) fn read_sights<'a>(
    alloc: Global,
    bytes: &'a [u8],
    names: &SiteNames,
) -> Result<(Row<Sight>, &'a [u8]), EntryError>
    ensures { Gives (λ x. (x.0, x.1.now)) result (list_at (sight_at (names_view names.now)) bytes.now) }
{
    match bytes.strip_prefix(b"-") {
        Some(rest) => Ok((Row::new(alloc), rest)),
        None => read_each_sight(alloc, bytes, names),
    }
}

/// One sight behind another, of which each takes a byte at least.
fn read_each_sight<'a>(
    alloc: Global,
    bytes: &'a [u8],
    names: &SiteNames,
) -> Result<(Row<Sight>, &'a [u8]), EntryError>
    ensures { Gives (λ x. (x.0, x.1.now)) result (parts_within (length bytes.now) (sight_at (names_view names.now)) bytes.now) }
{
    let mut sights = Row::new(alloc);
    let mut rest = bytes;
    for _ in 0..bytes.len() {
        let (sight, after) = read_sight(alloc, rest, names)?;
        sights.push(sight)?;
        match strip(after, ", ") {
            Some(next) => rest = next,
            None => return Ok((sights, after)),
        }
    }
    Err(EntryError::BadLine)
}

#[tactic(auto, unfolding(crate::specs::EntryReading::sight_at))]
fn read_sight<'a>(
    alloc: Global,
    bytes: &'a [u8],
    names: &SiteNames,
) -> Result<(Sight, &'a [u8]), EntryError>
    ensures { Gives (λ x. (x.0, x.1.now)) result (sight_at (names_view names.now) bytes.now) }
{
    let (checkable, rest) = read_name(alloc, bytes, names.checkables)?;
    let rest = behind(rest, " ")?;
    let (count, rest) = read_number(rest)?;
    Ok((Sight { checkable, count }, rest))
}
