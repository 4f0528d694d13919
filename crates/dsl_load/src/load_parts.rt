// What a load gives.
ghost use Rattle.std.specs.Prelude.{◌≡◌};
ghost use Rattle.eval_meaning.specs.Load.{loaded};
ghost use Rattle.eval_work.specs.Works.{state_of};
ghost use Rattle.eval_work.specs.Kept.{IsFit};
ghost use Rattle.dsl_load.specs.Loads.{plain_parts, IsLoad};

use dsl_value::Store;
use eval_work::{Item, Rule, Task, Templates, Work};

/// What a load gives: its store, of which all cells are frozen, and what it registered, in order.
#[derive(Drop)]
pub struct LoadParts {
    pub store: Store,
    pub templates: Templates,
    pub items: Vec<Item>,
    pub rules: Vec<Rule>,
}

/// What is left of a load, once its files were run.
pub fn parts_of(work: Work) -> LoadParts
    requires { IsFit work }
    ensures parts { plain_parts result ≡ loaded (state_of work) }
    ensures is_load { IsLoad result }
{
    let Work {
        alloc,
        store,
        task,
        ..
    } = work;
    let mut store = store;
    store.freeze();
    match task {
        Task::Load(load) => LoadParts {
            store,
            templates: load.templates,
            items: load.items,
            rules: load.rules,
        },
        Task::Item { .. } | Task::Rule => LoadParts {
            store,
            templates: Templates::new(alloc),
            items: Vec::new(alloc),
            rules: Vec::new(alloc),
        },
    }
}
