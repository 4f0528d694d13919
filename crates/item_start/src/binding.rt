// Trees that become values under names.
ghost use Rattle.std.specs.Prelude.{◌≡◌, ◌++◌, ◌∷◌, [], ℕ, IfOk, IfSome, OnOk, map};
ghost use Rattle.site_base.specs.View.{view};
ghost use Rattle.dsl_value.specs.Contents.{Contents, with_cells};
ghost use Rattle.dsl_value.specs.Loads.{bare, load, grown, given};
ghost use Rattle.eval_work.specs.Kept.{HasGlobals, IsLater, Named, PairsNamed};
ghost use Rattle.eval_work.specs.Works.{plain_pair};
ghost use Rattle.item_start.specs.Bound.{bound_in};

use dsl_value::{Store, Value};
use site_base::{OutOfMemory, Text, Tree};

/// Binds a name to a value that is made of a tree, behind the names that are bound. Want of memory comes also where the store has
/// 4,294,967,295 cells; what was bound before stays then.
pub fn bind_tree(
    store: &mut Store,
    bound: &mut Vec<(Text, Value)>,
    name: Text,
    tree: &Tree,
) -> Result<(), OutOfMemory>
    requires globals { HasGlobals store.old }
    requires named { PairsNamed store.old bound.old.items }
    ensures pairs { OnOk result (bound.new.items ≡ bound.old.items ++ (name, given 0 store.old.cells (load (view tree.now))) ∷ []) }
    ensures store { OnOk result (store.new ≡ with_cells store.old (grown 0 store.old.cells (load (view tree.now)))) }
    ensures named { OnOk result (PairsNamed store.new bound.new.items) }
    ensures globals { OnOk result (HasGlobals store.new) }
    ensures later { OnOk result (IsLater store.old store.new) }
{
    let value = value_of(store, tree)?;
    bound.push((name, value))?;
    Ok(())
}

/// The value that is made of a tree. A store that shares its cells with a fork copies them only for an array or a dictionary.
fn value_of(store: &mut Store, tree: &Tree) -> Result<Value, OutOfMemory>
    requires { HasGlobals store.old }
    ensures value { IfOk result (λ v. v ≡ given 0 store.old.cells (load (view tree.now))) }
    ensures store { OnOk result (store.new ≡ with_cells store.old (grown 0 store.old.cells (load (view tree.now)))) }
    ensures named { IfOk result (Named store.new) }
    ensures globals { OnOk result (HasGlobals store.new) }
    ensures later { OnOk result (IsLater store.old store.new) }
{
    match plain_value(tree)? {
        Some(value) => Ok(value),
        None => store.load_tree(tree),
    }
}

/// The value of a tree that is no array and no dictionary. It takes no cell.
fn plain_value(tree: &Tree) -> Result<Option<Value>, OutOfMemory>
    ensures bare { IfOk result (λ o. IfSome o (λ v. (n : ℕ) → load (view tree.now) n ≡ bare v)) }
    ensures named { IfOk result (λ o. IfSome o (λ v. (c : Contents) → Named c v)) }
{
    match tree {
        Tree::Null => Ok(Some(Value::Null)),
        Tree::Bool(truth) => Ok(Some(Value::Bool(*truth))),
        Tree::Number(number) => Ok(Some(Value::Number(*number))),
        Tree::Str(text) => Ok(Some(Value::Str(text.clone()?))),
        Tree::List(_) | Tree::Dict(_) => Ok(None),
    }
}

/// Binds names to values of their trees, one after another, behind those that are bound. Where memory runs out, some of them may be
/// bound.
pub fn bind_trees(
    store: &mut Store,
    bound: &mut Vec<(Text, Value)>,
    names: &[(Text, Tree)],
) -> Result<(), OutOfMemory>
    requires globals { HasGlobals store.old }
    requires named { PairsNamed store.old bound.old.items }
    ensures pairs { OnOk result (bound.new.items ≡ (bound_in (map plain_pair names.now) bound.old.items store.old.cells).pairs) }
    ensures store { OnOk result (store.new ≡ with_cells store.old (bound_in (map plain_pair names.now) bound.old.items store.old.cells).cells) }
    ensures named { OnOk result (PairsNamed store.new bound.new.items) }
    ensures globals { OnOk result (HasGlobals store.new) }
    ensures later { OnOk result (IsLater store.old store.new) }
{
    for (name, tree) in names {
        bind_tree(store, bound, name.clone()?, tree)?;
    }
    Ok(())
}
