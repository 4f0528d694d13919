// The work with which an evaluation begins.
ghost use Rattle.std.specs.Prelude.{◌≡◌};
ghost use Rattle.dsl_value.specs.PlainStores.{plain_store};
ghost use Rattle.eval_meaning.specs.Load.{most_open};
ghost use Rattle.eval_work.specs.Kept.{BoundNamed, HasGlobals, IsFit};
ghost use Rattle.eval_work.specs.Works.{state_of, plain_task};
ghost use Rattle.commit_meaning.specs.Starts.{fresh};

use dsl_value::{Store, Value};
use eval_meaning::Read;
use eval_work::{Budget, Locals, Task, Work};
use std::alloc::Global;

/// A work with which an evaluation begins: in this store, with all steps and all space of an item and no locals, and `this` is
/// null. So much was read before.
pub fn begin(alloc: Global, store: Store, task: Task, reads: Vec<Read>) -> Work
    requires globals { HasGlobals store }
    requires bound { BoundNamed store task }
    ensures state { state_of result ≡ fresh (plain_store store) (plain_task task) reads.items }
    ensures store { result.store ≡ store }
    ensures fit { IsFit result }
    ensures depth { result.depth ≡ most_open }
{
    let budget = Budget::of_item();
    Work {
        alloc,
        store,
        this: Value::Null,
        locals: Locals::new(alloc),
        in_file: false,
        steps: budget.steps,
        space: budget.space,
        depth: budget.depth,
        reads,
        task,
    }
}
