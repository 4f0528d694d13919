// How nodes are entered.
ghost use Rattle.std.specs.Prelude.{◌≡◌, ◌<◌, IfOk};
ghost use Rattle.eval_work.specs.Works.{state_of, Gives};
ghost use Rattle.eval_work.specs.Kept.{IsFit, IsStill};
ghost use Rattle.eval_steps.specs.Nodes.{node};

use eval_work::{Stop, Work, fault};
use site_base::{DiagKind, Place};

/// Enters a node where so many may still be open: its step is counted, and then the depth is looked at. Gives how many may be open
/// in it. A fault where no step is left, or where no more nodes may be open.
pub fn enter(work: &mut Work, depth: u32, place: Place) -> Result<u32, Stop>
    requires { IsFit work.old }
    ensures gives { Gives (λ d. d) result (state_of work.new) (node depth place (state_of work.old)) }
    ensures kept { IfOk result (λ _. IsStill work.old work.new) }
    ensures store { work.new.store ≡ work.old.store }
    ensures less { IfOk result (λ d. d < depth) }
{
    work.step(place)?;
    if depth == 0 {
        return Err(fault(work.alloc, place, DiagKind::DepthLimit));
    }
    Ok(depth - 1)
}
