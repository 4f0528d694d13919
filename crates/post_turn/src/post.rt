// The post: one machine under one lock.
ghost use Rattle.std.specs.Prelude.{◌≡◌, ◌<◌};

use crate::Machine;
use crate::turns::TurnLock;

mod acting;
mod closing;
mod opening;
mod waiting;

/// A machine whose state the callers share. Each caller acts through its own pass, and may do so
/// while other threads act through theirs.
#[derive(Drop)]
pub struct Post<M: Machine> {
    pub(crate) lock: TurnLock<M>,
    pub(crate) machine: M,
    pub(crate) number: u32,
    ghost sized: { (lock.shared.table_id.words ≡ 2) × (lock.shared.table_id.slots ≡ 1) },
    ghost keyed: { lock.shared.key.value.machine ≡ machine },
    ghost counted: { 0 < lock.shared.key.value.callers },
}
