// The evaluation of an item.
ghost use Rattle.std.specs.Prelude.{◌≡◌, IfOk, IfErr, OnOk, [], length};
ghost use Rattle.site_base.specs.View.{view as tree_view};
ghost use Rattle.dsl_syntax.specs.SyntaxView.{block_view};
ghost use Rattle.dsl_value.specs.Contents.{with_cells};
ghost use Rattle.dsl_value.specs.Pairs.{dict_of};
ghost use Rattle.eval_meaning.specs.Evaluation.{body_of};
ghost use Rattle.eval_meaning.specs.Load.{most_open};
ghost use Rattle.eval_work.specs.Kept.{HasGlobals, IsKept, IsLater, Named};
ghost use Rattle.eval_work.specs.Works.{state_of, view_of, plain_item, Gives};
ghost use Rattle.commit_meaning.specs.Answers.{answered};
ghost use Rattle.commit_meaning.specs.Items.{item_run};
ghost use Rattle.commit_meaning.specs.Starts.{Trees};
ghost use Rattle.item_start.specs.Answers.{Answers};
ghost use Rattle.item_start.specs.Bound.{bound_in};
ghost use Rattle.item_start.specs.Ready.{IsReady};
ghost use Rattle.item_body.specs.Bodies.{body_left, under_names, with_this};
ghost use Rattle.item_body.specs.Lawful.{AreBound, AreUsable, IsRunnable};

use dsl_eval::eval_body;
use dsl_syntax::Block;
use dsl_value::{Store, Value};
use eval_work::{Item, Locals, Stop, Task, Work, WorldView};
use item_start::{begin, bind_trees, enter_frame, tree_at};
use site_base::{OutOfMemory, Row, Text, Tree};
use std::alloc::Global;

/// Names that are bound to values, and the store that has these behind the load's cells.
#[derive(Drop)]
pub struct BoundNames {
    pub store: Store,
    pub names: Vec<(Text, Value)>,
}

/// The tree of an item's object before it is checked: the body is run with `this` being the presets, and then `this` becomes a
/// tree. It ends early by a fault of either, by a read that isn't decided, or by want of memory. These names are bound in the body, in place
/// of the item's own.
pub(crate) fn object_tree(
    alloc: Global,
    view: &WorldView,
    item: &Item,
    bound: BoundNames,
) -> Result<Tree, Stop>
    requires runnable { IsRunnable view.now item.now }
    requires usable { AreUsable view.now.store.now bound }
    ensures { (ns : Trees) → AreBound view.now.store.now ns bound → Answers tree_view item.now.number result (answered item.now.number (item_run (view_of view.now) (under_names ns (plain_item item.now)))) }
{
    let mut work = begin_under(alloc, view, item, bound)?;
    run_body(view, item, &mut work)
}

/// The names of an item with their values, in a fork of the load's store.
pub(crate) fn bound_names(
    alloc: Global,
    view: &WorldView,
    item: &Item,
) -> Result<BoundNames, OutOfMemory>
    requires { IsRunnable view.now item.now }
    ensures usable { IfOk result (AreUsable view.now.store.now) }
    ensures bound { IfOk result (AreBound view.now.store.now (plain_item item.now).names) }
{
    let mut store = view.store.fork()?;
    let mut names = Vec::new(alloc);
    bind_trees(&mut store, &mut names, &item.names)?;
    Ok(BoundNames { store, names })
}

/// The work in which an item's body is run, at the body's beginning: in a fork of the load's store, with a whole budget and `this`
/// being the presets, and what the item captured and then its bound names as locals. The error is want of memory.
pub fn begin_body(alloc: Global, view: &WorldView, item: &Item) -> Result<Work, Stop>
    requires { IsRunnable view.now item.now }
    ensures left { IfOk result (λ w. item_run (view_of view.now) (plain_item item.now) ≡ body_left (view_of view.now) (plain_item item.now) w.this (state_of w)) }
    ensures ready { IfOk result (IsReady view.now) }
    ensures memory { IfErr result (λ e. e ≡ Stop.Memory) }
{
    let bound = bound_names(alloc, view, item)?;
    begin_under(alloc, view, item, bound)
}

/// The same with these names in place of the item's own.
fn begin_under(
    alloc: Global,
    view: &WorldView,
    item: &Item,
    bound: BoundNames,
) -> Result<Work, Stop>
    requires runnable { IsRunnable view.now item.now }
    requires usable { AreUsable view.now.store.now bound }
    ensures left { (ns : Trees) → AreBound view.now.store.now ns bound → IfOk result (λ w. item_run (view_of view.now) (under_names ns (plain_item item.now)) ≡ body_left (view_of view.now) (plain_item item.now) w.this (state_of w)) }
    ensures ready { IfOk result (IsReady view.now) }
    ensures memory { IfErr result (λ e. e ≡ Stop.Memory) }
{
    let BoundNames { mut store, names } = bound;
    let this = new_this(alloc, &mut store, item)?;
    let task = Task::Item {
        kind: item.kind.clone()?,
        bound: by_name(alloc, &names)?,
    };
    let mut work = begin(alloc, store, task, Vec::new(alloc));
    enter_frame(&mut work, this, &item.captured, &names)?;
    Ok(work)
}

/// A new dictionary of an item's presets.
fn new_this(alloc: Global, store: &mut Store, item: &Item) -> Result<Value, OutOfMemory>
    requires { HasGlobals store.old }
    ensures value { IfOk result (λ v. v ≡ Value.Ref (length (bound_in (plain_item item.now).presets [] store.old.cells).cells)) }
    ensures store { OnOk result (store.new ≡ with_cells store.old (with_this (bound_in (plain_item item.now).presets [] store.old.cells))) }
    ensures globals { OnOk result (HasGlobals store.new) }
    ensures later { OnOk result (IsLater store.old store.new) }
    ensures named { IfOk result (Named store.new) }
{
    let mut pairs = Vec::new(alloc);
    bind_trees(store, &mut pairs, &item.presets)?;
    store.dict(Row::from(pairs))
}

/// The bound names by their rising names, of which the last of each name counts.
fn by_name(alloc: Global, bound: &[(Text, Value)]) -> Result<Locals, OutOfMemory>
    ensures { IfOk result (λ l. l ≡ dict_of bound.now []) }
{
    let mut names = Locals::new(alloc);
    names.put_all(bound)?;
    Ok(names)
}

/// Runs the body, and gives the tree of what `this` was at its beginning.
fn run_body(view: &WorldView, item: &Item, work: &mut Work) -> Result<Tree, Stop>
    requires { IsReady view.now work.old }
    ensures { Gives tree_view result (state_of work.new) (body_left (view_of view.now) (plain_item item.now) work.old.this (state_of work.old)) }
{
    let this = work.this_value()?;
    run_block(view, &item.body, work)?;
    tree_at(work, item.place, &this)
}

/// Runs a body, and gives what it returns.
fn run_block(view: &WorldView, block: &Block, work: &mut Work) -> Result<Value, Stop>
    requires { IsReady view.now work.old }
    ensures gives { Gives (λ v. v) result (state_of work.new) (body_of (view_of view.now) most_open (block_view block.now) (state_of work.old)) }
    ensures kept { IfOk result (IsKept work.old work.new) }
{
    eval_body(view, work, &block.statements)
}
