// One item.
ghost use Rattle.std.specs.Prelude.{◌≡◌, [], ◌∷◌, IfOk};
ghost use Rattle.site_base.specs.View.{view as tree_view};
ghost use Rattle.site_model.specs.PlainSite.{object_view};
ghost use Rattle.eval_meaning.specs.Views.{View, IsPart};
ghost use Rattle.eval_work.specs.Works.{view_of, plain_item};
ghost use Rattle.commit_meaning.specs.Answers.{made};
ghost use Rattle.commit_meaning.specs.Items.{item_answer, object_of as object_made, checked as checked_answer};
ghost use Rattle.commit_meaning.specs.Starts.{Trees};
ghost use Rattle.commit_meaning.specs.Staying.{Stays};
ghost use Rattle.item_body.specs.Bodies.{under_names};
ghost use Rattle.item_body.specs.Lawful.{AreBound, AreUsable, IsRunnable};
ghost use Rattle.item_body.specs.Plain.{plain_answer};

use crate::body::{bound_names, object_tree};
use crate::full_name::full_name;
use crate::{BoundNames, ItemAnswer};
use eval_work::{Item, Stop, WorldView};
use object_types::check_object;
use site_base::{Diag, Diags, OutOfMemory, Row, Tree};
use site_model::Object;
use std::alloc::Global;
use std::sync::Arc;

/// What an item comes to over a view: an object, or what is wrong with it, or the first read that the view doesn't decide.
///
/// First the body is run, with `this` being the presets, and the item's fault is told; then `this` becomes a tree, which
/// may be `Cyclic`, `FunctionValue` or `SpaceLimit` at the item; then the attributes are checked, as `check_object` (object_types)
/// says. An answer that isn't blocked stays the same over every view that shows more, as over the whole world.
pub fn run_item(alloc: Global, view: &WorldView, item: &Item) -> Result<ItemAnswer, OutOfMemory>
    requires { IsRunnable view.now item.now }
    ensures answer { IfOk result (λ a. plain_answer a ≡ item_answer (view_of view.now) (plain_item item.now)) }
    ensures stays { (world : View) → IsPart (view_of view.now) world → IfOk result (λ a. Stays (plain_answer a) (item_answer world (plain_item item.now))) }
{
    let bound = bound_names(alloc, view, item)?;
    run_bound(alloc, view, item, bound)
}

/// What an item comes to, as [`run_item`] says, in whose body these names are bound in place of its own.
pub fn run_bound(
    alloc: Global,
    view: &WorldView,
    item: &Item,
    bound: BoundNames,
) -> Result<ItemAnswer, OutOfMemory>
    requires runnable { IsRunnable view.now item.now }
    requires usable { AreUsable view.now.store.now bound }
    ensures answer { (ns : Trees) → AreBound view.now.store.now ns bound → IfOk result (λ a. plain_answer a ≡ item_answer (view_of view.now) (under_names ns (plain_item item.now))) }
    ensures stays { (ns : Trees) → AreBound view.now.store.now ns bound → (world : View) → IsPart (view_of view.now) world → IfOk result (λ a. Stays (plain_answer a) (item_answer world (under_names ns (plain_item item.now)))) }
{
    match object_tree(alloc, view, item, bound) {
        Ok(tree) => checked(alloc, item, tree),
        Err(Stop::Fault { place, kind, text }) => {
            let number = item.number;
            let fault = Diag {
                number,
                place,
                kind,
                text,
            };
            Ok(ItemAnswer::Diags(only(alloc, fault)?))
        }
        Err(Stop::Blocked(read)) => Ok(ItemAnswer::Blocked(read)),
        Err(Stop::Memory) => Err(OutOfMemory),
    }
}

/// What an item comes to whose `this` has this tree.
fn checked(alloc: Global, item: &Item, tree: Tree) -> Result<ItemAnswer, OutOfMemory>
    ensures { IfOk result (λ a. plain_answer a ≡ checked_answer (plain_item item.now) (made (tree_view tree))) }
{
    let faults = check_object(alloc, item.kind.as_str(), &tree, item.number, item.place)?;
    if faults.is_empty() {
        Ok(ItemAnswer::Made(object_of(alloc, item, tree)?))
    } else {
        Ok(ItemAnswer::Diags(faults))
    }
}

/// The object of an item, with these attributes.
fn object_of(alloc: Global, item: &Item, tree: Tree) -> Result<Object, OutOfMemory>
    ensures { IfOk result (λ o. object_view o ≡ object_made (plain_item item.now) (tree_view tree)) }
{
    Ok(Object {
        kind: item.kind.clone()?,
        name: full_name(alloc, item.kind.as_str(), &item.name, &tree)?,
        place: item.place,
        number: item.number,
        builtin: item.builtin,
        tree: Arc::new(alloc, tree)?,
    })
}

/// A list of one diagnostic.
fn only(alloc: Global, fault: Diag) -> Result<Diags, OutOfMemory>
    ensures { IfOk result (λ ds. ds ≡ fault ∷ []) }
{
    let mut faults = Row::new(alloc);
    faults.push(fault)?;
    Ok(faults)
}
