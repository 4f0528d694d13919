// What a load begins with.
ghost use Rattle.std.specs.Prelude.{◌≡◌, ◌∷◌, [], IfOk, IfErr, map, codes};
ghost use Rattle.dsl_value.specs.Contents.{Contents, dict};
ghost use Rattle.eval_meaning.specs.Load.{first_globals, first_loading, load_start, load_view as view_of_load, most_open};
ghost use Rattle.eval_work.specs.Works.{state_of, view_of, plain_file, plain_loading};
ghost use Rattle.eval_work.specs.Kept.{IsFit, RegisteredNamed};

use crate::first_names::{first_constants, first_strings};
use dsl_value::{Store, Value};
use eval_work::{
    Budget, Committed, Known, Loading, Locals, SourceFile, Task, Templates, Work, WorldView,
};
use site_base::{OutOfMemory, Row, Text};
use std::alloc::Global;

/// The store: the globals, and behind them `Vars`, which is one of them.
fn first_store(alloc: Global) -> Result<Store, OutOfMemory>
    ensures { IfOk result (λ s. s ≡ record { cells = dict first_globals ∷ dict [] ∷ []; base = 0; functions = [] }) }
{
    let mut store = Store::new(alloc);
    store.dict(Row::from(first_strings(alloc)?))?;
    let vars = store.dict(Row::new(alloc))?;
    match store.set(0, Text::copy_of(alloc, "Vars")?, vars) {
        Ok(()) => Ok(store),
        Err(_) => Err(OutOfMemory),
    }
}

fn first_load(alloc: Global, order: &[u32]) -> Result<Loading, OutOfMemory>
    ensures load { IfOk result (λ l. plain_loading l ≡ first_loading order.now) }
    ensures named { (c : Contents) → IfOk result (RegisteredNamed c) }
{
    Ok(Loading {
        order: Vec::from_slice(alloc, order)?,
        at: 0,
        constants: first_constants(alloc)?,
        templates: Templates::new(alloc),
        items: Vec::new(alloc),
        rules: Vec::new(alloc),
    })
}

/// What an evaluation of files begins with, by the order of their walk.
pub(crate) fn first_work(alloc: Global, order: &[u32]) -> Result<Work, OutOfMemory>
    ensures start { IfOk result (λ w. state_of w ≡ load_start order.now) }
    ensures depth { IfOk result (λ w. w.depth ≡ most_open) }
    ensures fit { IfOk result IsFit }
{
    let budget = Budget::of_load();
    Ok(Work {
        alloc,
        store: first_store(alloc)?,
        this: Value::Ref(0),
        locals: Locals::new(alloc),
        in_file: true,
        steps: budget.steps,
        space: budget.space,
        depth: budget.depth,
        reads: Vec::new(alloc),
        task: Task::Load(first_load(alloc, order)?),
    })
}

/// What is known at a load: that there are no hosts and no services.
pub(crate) fn no_objects(alloc: Global) -> Result<Known, OutOfMemory>
    ensures whole { IfOk result (λ k. k.whole.items ≡ codes "Host" ∷ codes "Service" ∷ []) }
    ensures absent { IfOk result (λ k. k.absent.items ≡ []) }
{
    let mut whole = Vec::with_capacity(alloc, 2)?;
    whole.push(Text::copy_of(alloc, "Host")?)?;
    whole.push(Text::copy_of(alloc, "Service")?)?;
    Ok(Known {
        whole,
        absent: Vec::new(alloc),
    })
}

/// What a load is told.
pub(crate) fn load_view<'a>(
    store: &'a Store,
    templates: &'a Templates,
    objects: &'a Committed,
    known: &'a Known,
    files: &'a [SourceFile],
) -> WorldView<'a>
    requires templates { templates.now ≡ [] }
    requires objects { objects.now ≡ [] }
    requires store { store.now ≡ record { cells = []; base = 0; functions = [] } }
    requires whole { known.now.whole.items ≡ codes "Host" ∷ codes "Service" ∷ [] }
    requires absent { known.now.absent.items ≡ [] }
    ensures view { view_of result ≡ view_of_load (map plain_file files.now) }
    ensures templates { result.templates.now ≡ [] }
{
    WorldView {
        store,
        templates,
        rules: &[],
        objects,
        known,
        files,
    }
}
