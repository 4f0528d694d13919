// How events are made of what was seen.
ghost use Rattle.std.specs.Prelude.{◌≡◌, ℕ, List, map, IfOk};
ghost use Rattle.post_rounds.specs.declared.sight.Sight.{Sight};

use crate::Sight;
use post_turn::Machine;
use site_base::{OutOfMemory, Row};
use std::alloc::Global;

/// Makes the event of a job, by what its caller saw of other posts.
pub trait Maker<M: Machine>: Sync {
    /// What a job asks for.
    type Want: Drop + Send;

    /// Whether that may be asked for at this machine, by sights of these posts.
    ghost apt: { Self → M → Self.Want → List ℕ → Type 0 };

    /// The event that is made of these sights.
    ghost event_of: { Self → Self.Want → List (Sight M.Glance) → M.Event };

    /// Makes the event. Fails for want of memory alone.
    fn event(
        &self,
        alloc: Global,
        want: Self::Want,
        sights: Row<Sight<M::Glance>>,
    ) -> Result<M::Event, OutOfMemory>
        ensures event { IfOk result (λ v. v ≡ event_of self.now want sights) }
        ensures lawful { (m : M) → apt self.now m want (map (λ (s : Sight M.Glance). s.post) sights) → IfOk result (λ v. M.lawful m v) };
}
