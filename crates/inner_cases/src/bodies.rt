// The body of an item.
ghost use Rattle.item_body.specs.Lawful.{IsRunnable};
ghost use Rattle.eval_work.specs.Kept.{IsFit, IsTold};

use crate::shown::{push_budget, push_object, push_read};
use dsl_eval::eval_body;
use eval_meaning::Read;
use eval_work::{Budget, Item, Stop, Work, WorldView};
use item_body::begin_body;
use item_start::tree_at;
use site_base::{OutOfMemory, Text, Tree};
use site_model::Object;
use std::alloc::Global;
use std::sync::Arc;

/// Adds what a body comes to with this budget, and what is left of it.
pub(crate) fn push_within(
    alloc: Global,
    out: &mut Text,
    view: &WorldView,
    item: &Item,
    budget: Budget,
) -> Result<(), Stop>
    requires { IsRunnable view.now item.now }
{
    let mut work = begin_body(alloc, view, item)?;
    work.steps = budget.steps;
    work.space = budget.space;
    work.depth = budget.depth;
    push_run(alloc, out, view, &mut work, item)
}

/// Runs a body, and adds what it comes to, and what is left of the budget.
fn push_run(
    alloc: Global,
    out: &mut Text,
    view: &WorldView,
    work: &mut Work,
    item: &Item,
) -> Result<(), Stop>
    requires fit { IsFit work.old }
    requires told { IsTold view.now work.old.store }
{
    let tree = tree_after(view, work, item)?;
    push_made(alloc, out, item, tree)?;
    out.push_str(" left ")?;
    push_budget(out, work.steps, work.space)?;
    Ok(())
}

/// Adds the object that an item makes of a tree.
fn push_made(alloc: Global, out: &mut Text, item: &Item, tree: Tree) -> Result<(), OutOfMemory> {
    let tree = Arc::new(alloc, tree)?;
    let kind = item.kind.clone()?;
    let object = Object {
        kind,
        name: item.name.clone()?,
        place: item.place,
        number: item.number,
        builtin: false,
        tree,
    };
    push_object(alloc, out, &object)
}

/// Adds the objects that a body asked for, with its fault after them.
pub(crate) fn push_reads(
    alloc: Global,
    out: &mut Text,
    view: &WorldView,
    item: &Item,
) -> Result<(), Stop>
    requires { IsRunnable view.now item.now }
{
    let mut work = begin_body(alloc, view, item)?;
    push_reads_of(out, view, &mut work, item)
}

/// Runs a body, and adds what it asked for, with its fault after it.
fn push_reads_of(out: &mut Text, view: &WorldView, work: &mut Work, item: &Item) -> Result<(), Stop>
    requires fit { IsFit work.old }
    requires told { IsTold view.now work.old.store }
{
    let ended = tree_after(view, work, item);
    push_all_reads(out, &work.reads)?;
    match ended {
        Ok(_) => Ok(()),
        Err(stop) => {
            out.push_str(" then ")?;
            Err(stop)
        }
    }
}

/// Adds reads, commas between.
fn push_all_reads(out: &mut Text, reads: &[Read]) -> Result<(), OutOfMemory> {
    if reads.is_empty() {
        return out.push_str("none");
    }
    for (i, read) in reads.iter().enumerate() {
        if i > 0 {
            out.push_str(", ")?;
        }
        push_read(out, read)?;
    }
    Ok(())
}

/// The tree of what `this` was at the beginning of a body, once that was run.
fn tree_after(view: &WorldView, work: &mut Work, item: &Item) -> Result<Tree, Stop>
    requires fit { IsFit work.old }
    requires told { IsTold view.now work.old.store }
{
    let this = work.this_value()?;
    eval_body(view, work, &item.body.statements)?;
    tree_at(work, item.place, &this)
}
