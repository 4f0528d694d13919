// The walk that makes trees.
ghost use Rattle.std.specs.Prelude.{◌≡◌, ◌<◌, ◌≤◌, ◌+◌, ◌∷◌, IfOk, IfSome, IfNone, length, map};
ghost use Rattle.site_base.specs.View.{view};
ghost use Rattle.dsl_value.specs.Whole.{Names};
ghost use Rattle.dsl_value.specs.Walks.{most, walked, tree_walked, Gives, is_open};
ghost use Rattle.dsl_value.specs.Paths.{IsPath, Passed, Turned, Falls, going, going_at, going_with, left_of, below_of, tree_made};
ghost use Rattle.dsl_value.specs.Entering.{frame, cell_of};
ghost use Rattle.dsl_value.specs.declared.value.Value.TheVariants as value;

use crate::frame::Frame;
use crate::frames::{add_tree, cell_of_frame, enter, key_bytes_of, next_of, tree_of_frame};
use crate::looking::{Look, charge, charge_element, look_at};
use crate::nest::Nest;
use crate::path::Path;
use crate::turn::Turn;
use crate::{Store, TreeFault, Value};
use site_base::Tree;
use std::alloc::Global;

/// The tree that a value stands for. However deep the value is, this takes no more stack.
pub(crate) fn walk_value(alloc: Global, store: &Store, value: &Value) -> Result<Tree, TreeFault>
    requires { Names (length store.now.cells) (length store.now.functions) value.now }
    ensures { Gives view result (tree_walked store.now.cells value.now) }
{
    match look_at(value, 0)? {
        Look::Leaf { tree, .. } => Ok(tree),
        Look::Cell(cell) => walk_cell(alloc, store, cell),
    }
}

/// The tree of a cell.
fn walk_cell(alloc: Global, store: &Store, cell: u32) -> Result<Tree, TreeFault>
    requires { cell < length store.now.cells }
    ensures { Gives view result (tree_walked store.now.cells (value.Ref cell)) }
{
    let top = enter(alloc, cell, store.cell(cell))?;
    let below = Nest::new(alloc);
    let mut path = Path {
        top,
        below,
        cost: 1,
    };
    loop {
        match turn(alloc, store, path)? {
            Turn::On(next) => path = next,
            Turn::Done(tree) => return Ok(tree),
        }
    }
}

/// Passes elements or pairs up to one that is a cell, and enters that, or leaves a cell that is passed.
fn turn(alloc: Global, store: &Store, mut path: Path) -> Result<Turn, TreeFault>
    requires { IsPath (length store.now.cells) path }
    ensures gives { Turned store.now.cells result (going store.now.cells path) }
    ensures falls { Falls (length store.now.cells) (left_of path) result }
{
    match pass_leaves(store, &mut path)? {
        None => leave(store, path),
        Some(cell) => descend(alloc, store, path, cell),
    }
}

/// Passes the elements or pairs that come next and hold no cell, and gives the cell that comes then,
/// whose element is counted; `None` if all are passed.
fn pass_leaves(store: &Store, path: &mut Path) -> Result<Option<u32>, TreeFault>
    requires { IsPath (length store.now.cells) path.old }
    ensures gives { Passed store.now.cells path.new result (going store.now.cells path.old) }
    ensures falls { IfOk result (λ o. IsPath (length store.now.cells) path.new × (left_of path.new ≤ left_of path.old)) }
{
    let content = store.cell(cell_of_frame(&path.top));
    while let Some(value) = next_of(&path.top, content) {
        let bytes = key_bytes_of(&path.top, content);
        let Some(counted) = charge_element(path.cost, bytes) else {
            return Err(TreeFault::TooLarge);
        };
        match look_at(value, counted)? {
            Look::Leaf { tree, cost } => {
                add_tree(&mut path.top, content, tree)?;
                path.cost = cost;
            }
            Look::Cell(cell) => {
                path.cost = counted;
                return Ok(Some(cell));
            }
        }
    }
    Ok(None)
}

/// Enters a cell, unless the walk is inside of it.
fn descend(alloc: Global, store: &Store, path: Path, cell: u32) -> Result<Turn, TreeFault>
    requires path { IsPath (length store.now.cells) path }
    requires inside { cell < length store.now.cells }
    ensures gives { Turned store.now.cells result (going_at store.now.cells path (value.Ref cell)) }
    ensures falls { Falls (length store.now.cells) (left_of path) result }
{
    if is_inside(&path, cell) {
        return Err(TreeFault::Cyclic { cell });
    }
    let Some(cost) = charge(path.cost, 1) else {
        return Err(TreeFault::TooLarge);
    };
    let top = enter(alloc, cell, store.cell(cell))?;
    let below = path.below.with(path.top)?;
    Ok(Turn::On(Path { top, below, cost }))
}

/// Leaves a cell that is passed.
fn leave(store: &Store, path: Path) -> Result<Turn, TreeFault>
    requires { IsPath (length store.now.cells) path }
    ensures gives { Turned store.now.cells result (going_with store.now.cells (below_of path) (walked (tree_made (frame path.top)) path.cost)) }
    ensures falls { Falls (length store.now.cells) (left_of path) result }
{
    let Path { top, below, cost } = path;
    let tree = tree_of_frame(top);
    match below.split() {
        None => Ok(Turn::Done(tree)),
        Some((top, below)) => add(store, Path { top, below, cost }, tree),
    }
}

/// Adds the tree of what is passed.
fn add(store: &Store, path: Path, tree: Tree) -> Result<Turn, TreeFault>
    requires { IsPath (length store.now.cells) path }
    ensures gives { Turned store.now.cells result (going_with store.now.cells (frame path.top ∷ below_of path) (walked (view tree) path.cost)) }
    ensures falls { Falls (length store.now.cells) (left_of path + 1) result }
{
    let Path {
        mut top,
        below,
        cost,
    } = path;
    let content = store.cell(cell_of_frame(&top));
    add_tree(&mut top, content, tree)?;
    Ok(Turn::On(Path { top, below, cost }))
}

/// Whether the walk is inside of a cell.
fn is_inside(path: &Path, cell: u32) -> bool
    ensures { result ≡ is_open cell (map cell_of (frame path.now.top ∷ below_of path.now)) }
{
    cell_of_frame(&path.top) == cell || path.below.contains(cell)
}
