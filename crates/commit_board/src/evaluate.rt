// What tasks come to.
ghost use Rattle.std.specs.Prelude.{IfOk};

use site_base::OutOfMemory;
use std::alloc::Global;

/// Makes the answers of tasks. Many threads share it.
pub trait Evaluate<T, A>: Sync {
    /// Which tasks may be given.
    ghost fits: { Self → T → Type 0 };

    /// Which answers are right for a task.
    ghost gives: { Self → T → A → Type 0 };

    /// The answer of a task. Fails for want of memory alone.
    fn answer(&self, alloc: Global, task: &T) -> Result<A, OutOfMemory>
        requires { fits self.now task.now }
        ensures { IfOk result (gives self.now task.now) };
}
