// Things by their numbers.
ghost use Rattle.std.specs.Prelude.{◌≡◌, IfOk, map};
ghost use Rattle.dsl_value.specs.Contents.{Contents};
ghost use Rattle.commit_meaning.specs.Orders.{by_number};
ghost use Rattle.commit_meaning.specs.Waves.{diag_number, item_number};
ghost use Rattle.wave_order.specs.WaveItems.{AreWaitingIn, plain_pending};

use crate::Pending;
use site_base::{Diags, OutOfMemory, Row};

/// Items by their numbers; those of one number keep their order.
pub fn items_by_number<'a>(items: Vec<Pending<'a>>) -> Result<Vec<Pending<'a>>, OutOfMemory>
    ensures items { IfOk result (λ sorted. map plain_pending sorted.items ≡ by_number item_number (map plain_pending items.entry.items)) }
    ensures shared { (s : Contents) → AreWaitingIn s items.entry.items → IfOk result (λ sorted. AreWaitingIn s sorted.items) }
{
    let mut sorted = items;
    sorted.sort_by_key(|item| item.number())?;
    Ok(sorted)
}

/// Diagnostics by the numbers of their items; those of one item keep their order.
pub fn diags_by_number(diags: Diags) -> Result<Diags, OutOfMemory>
    ensures { IfOk result (λ sorted. sorted ≡ by_number diag_number diags) }
{
    let mut sorted = diags.into_vec();
    sorted.sort_by_key(|diag| diag.number)?;
    Ok(Row::from(sorted))
}
