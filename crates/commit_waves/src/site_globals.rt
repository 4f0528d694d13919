// The globals that a site takes.
ghost use Rattle.std.specs.Prelude.{◌≡◌, ◌<◌, length, codes, IfOk, IfSome, IfNone, Some, None};
ghost use Rattle.site_base.specs.View.{view};
ghost use Rattle.eval_meaning.specs.Frames.{name_in};
ghost use Rattle.eval_work.specs.Kept.{HasGlobals, Named};
ghost use Rattle.site_phases.specs.Constants.{globals_view, tree_view};
ghost use Rattle.commit_waves.specs.Globals.{global_tree, globals_of, tree_or_null};

use dsl_load::LoadParts;
use dsl_value::{Cell, Store, TreeFault, Value};
use site_base::{Blob, OutOfMemory, Tree};
use site_phases::Globals;

/// The globals of a load that a site takes, and the bytes of the zone's file (Icinga 2 documentation, Language Reference, Constants).
/// What else was loaded goes.
pub(crate) fn site_globals(parts: LoadParts, zone: Option<Blob>) -> Result<Globals, OutOfMemory>
    requires { HasGlobals parts.store }
    ensures { IfOk result (λ g. globals_view g ≡ globals_of parts.store.cells zone) }
{
    let store = &parts.store;
    Ok(Globals {
        max_checks: tree_of_global(store, "MaxConcurrentChecks")?,
        site_zone: tree_of_global(store, "SiteZone")?,
        zone_file: zone,
        vars: match tree_of_global(store, "Vars")? {
            Some(tree) => tree,
            None => Tree::Null,
        },
    })
}

/// The tree of a global; `Null` if its value has none.
fn tree_of_global(store: &Store, name: &str) -> Result<Option<Tree>, OutOfMemory>
    requires { HasGlobals store.now }
    ensures { IfOk result (λ t. tree_view t ≡ global_tree store.now.cells name.now) }
{
    match global(store, name) {
        Some(value) => Ok(Some(tree_of(store, value)?)),
        None => Ok(None),
    }
}

fn global<'a>(store: &'a Store, name: &str) -> Option<&'a Value>
    requires { HasGlobals store.now }
    ensures found { IfSome result (λ v. (name_in store.now.cells name.now (Value.Ref 0) ≡ Some v.now) × Named store.now v.now) }
    ensures absent { IfNone result (name_in store.now.cells name.now (Value.Ref 0) ≡ None) }
{
    match store.cell(0) {
        Cell::Dict(_) => store.get(0, name),
        Cell::Array(_) => None,
    }
}

fn tree_of(store: &Store, value: &Value) -> Result<Tree, OutOfMemory>
    requires { Named store.now value.now }
    ensures { IfOk result (λ t. view t ≡ tree_or_null store.now.cells value.now) }
{
    match store.tree_of(value) {
        Ok(tree) => Ok(tree),
        Err(TreeFault::OutOfMemory) => Err(OutOfMemory),
        Err(TreeFault::Cyclic { .. } | TreeFault::HasFunction | TreeFault::TooLarge) => {
            Ok(Tree::Null)
        }
    }
}
