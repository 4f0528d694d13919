// Things that are lent as tasks.
ghost use Rattle.std.specs.Prelude.{◌≡◌, IfOk, map};

use site_base::OutOfMemory;
use std::alloc::Global;

/// Each of several things as a task, to which it is lent.
pub(crate) fn each_of<'a, X>(alloc: Global, things: &'a [X]) -> Result<Vec<&'a X>, OutOfMemory>
    ensures { IfOk result (λ tasks. map (λ t. t.now) tasks.items ≡ things.now) }
{
    let mut tasks = Vec::with_capacity(alloc, things.len())?;
    for thing in things {
        tasks.push(thing)?;
    }
    Ok(tasks)
}
