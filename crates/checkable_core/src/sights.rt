// How far the checkables on which one depends were seen.
ghost use Rattle.std.specs.Prelude.{◌≡◌, IfOk, map};
ghost use Rattle.checkable_core.specs.Entries.{sight_of};

use site_base::{OutOfMemory, Row};
use site_model::{Sight, View};
use std::alloc::Global;

/// How far the checkables were seen that show this.
pub(crate) fn sights_of(alloc: Global, seen: &[(u32, View)]) -> Result<Row<Sight>, OutOfMemory>
    ensures { IfOk result (λ r. r ≡ map sight_of seen.now) }
{
    let mut sights = Vec::with_capacity(alloc, seen.len())?;
    for (checkable, view) in seen {
        sights.push(Sight {
            checkable: *checkable,
            count: view.count,
        })?;
    }
    Ok(Row::from(sights))
}
