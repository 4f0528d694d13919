// The orders of a turn that are started.
ghost use Rattle.std.specs.Prelude.{◌≡◌, map, IfOk};
ghost use Rattle.turn_engine.specs.Orders.{order_as};
ghost use Rattle.site_run.specs.Starts.{started_of as started_with};

use site_base::OutOfMemory;
use site_edge::Order;
use std::alloc::Global;
use turn_engine::OrderOut;

/// The orders that are started: those for whose commands no macro is missing. Their words are moved.
pub(crate) fn started_of(alloc: Global, orders: Vec<OrderOut>) -> Result<Vec<Order>, OutOfMemory>
    ensures { IfOk result (λ started. started.items ≡ started_with (map order_as orders.items)) }
{
    let mut started = Vec::new(alloc);
    for order in orders {
        let OrderOut { number, argv, .. } = order;
        if let Ok(argv) = argv {
            started.push(Order { number, argv })?;
        }
    }
    Ok(started)
}
