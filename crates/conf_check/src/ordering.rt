// Diagnostics by the numbers of their items.
ghost use Rattle.std.specs.Prelude.{IfOk};
ghost use Rattle.conf_check.specs.Ordering.{IsByNumber};

use site_base::{Diags, OutOfMemory, Row};

/// The diagnostics by the numbers of their items; those of one item keep their order.
pub(crate) fn by_number(faults: Diags) -> Result<Diags, OutOfMemory>
    ensures { IfOk result (IsByNumber faults) }
{
    let mut list = faults.into_vec();
    list.sort_by_key(|fault| fault.number)?;
    Ok(Row::from(list))
}
