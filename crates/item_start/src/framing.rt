// The frames of bodies and of the expressions of rules.
ghost use Rattle.std.specs.Prelude.{◌≡◌, false, OnOk, IfErr};
ghost use Rattle.eval_meaning.specs.Frames.{first_locals as locals_first};
ghost use Rattle.eval_work.specs.Kept.{IsFit, Named, PairsNamed};

use dsl_value::{PairsLeft, Value};
use eval_work::{Locals, Stop, Work, first_locals};
use site_base::Text;
use std::mem;

/// Enters a frame that is no file's: its `this`, and as locals what was captured and then what is bound, of which a later name takes
/// the place of an earlier one. They take the memory that the locals took before. The error is want of memory.
pub fn enter_frame(
    work: &mut Work,
    this: Value,
    captured: &[(Text, Value)],
    bound: &[(Text, Value)],
) -> Result<(), Stop>
    requires fit { IsFit work.old }
    requires this { Named work.old.store this }
    requires captured { PairsNamed work.old.store captured.now }
    requires bound { PairsNamed work.old.store bound.now }
    ensures frame { OnOk result (work.new ≡ record work.old { this = this; locals = locals_first captured.now bound.now; in_file = false }) }
    ensures fit { OnOk result (IsFit work.new) }
    ensures memory { IfErr result (λ e. e ≡ Stop.Memory) }
{
    let left = mem::replace(&mut work.locals, Locals::new(work.alloc));
    let locals = first_locals(captured, &PairsLeft::of_row(bound), left.cleared())?;
    work.this = this;
    work.locals = locals;
    work.in_file = false;
    Ok(())
}
