// How lines of entries begin.
ghost use Rattle.std.specs.Prelude.{◌≡◌};
ghost use Rattle.log_text.specs.EntryReading.{head_at};
ghost use Rattle.log_text.specs.Fronts.{Gives};
ghost use Rattle.log_text.specs.SiteNames.{names_view};

use crate::fields::{behind, read_moment, read_name, read_number, read_word};
use crate::{EntryError, SiteNames};
use site_base::Moment;
use std::alloc::Global;

/// A checkable, and which entry of its history a line is of.
#[derive(Clone, Copy)]
pub(crate) struct Head {
    pub checkable: u32,
    pub number: u64,
    pub caller: u32,
    pub moment: Moment,
}

#[tactic(auto, unfolding(crate::specs::EntryReading::head_at))]
pub(crate) fn read_head<'a>(
    alloc: Global,
    bytes: &'a [u8],
    names: &SiteNames,
) -> Result<(Head, &'a [u8]), EntryError>
    ensures { Gives (λ x. (x.0, x.1.now)) result (head_at (names_view names.now) bytes.now) }
{
    let rest = behind(bytes, "entry ")?;
    let (checkable, rest) = read_name(alloc, rest, names.checkables)?;
    let rest = behind(rest, " ")?;
    let (number, rest) = read_number(rest)?;
    let rest = behind(rest, " by ")?;
    let (caller, rest) = read_word(rest)?;
    let rest = behind(rest, " at ")?;
    let (moment, rest) = match read_moment(rest) {
        Ok(told) => told,
        Err(error) => return Err(error),
    };
    let rest = behind(rest, ": ")?;
    let head = Head {
        checkable,
        number,
        caller,
        moment,
    };
    Ok((head, rest))
}
