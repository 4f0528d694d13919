// The orders that wait for a thread, among those that were given.
ghost use Rattle.std.specs.Prelude.{◌≡◌, IfOk};
ghost use Rattle.live_world.specs.Turns.{numbers};

use crate::running::Running;
use site_base::OutOfMemory;
use std::thread::Threads;

/// Tries again to start the orders that wait for a thread, in the order in which they were given, until there is no room for one.
pub fn start_waiting<T: Threads>(
    rt: &HostRuntime,
    threads: &T,
    running: Vec<Running>,
) -> Result<Vec<Running>, OutOfMemory>
    ensures { IfOk result (λ r. numbers r.items ≡ numbers running.items) }
{
    let mut all = Vec::new(rt.alloc());
    let mut has_room = true;
    for order in running {
        let order = if has_room {
            order.again(rt, threads)?
        } else {
            order
        };
        has_room = has_room && !order.waits_for_thread();
        all.push(order)?;
    }
    Ok(all)
}
