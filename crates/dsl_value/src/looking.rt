// What a walk sees of a value.
ghost use Rattle.std.specs.Prelude.{◌≡◌, ◌<◌, ◌≤◌, ◌+◌, IfOk, IfSome, IfNone};
ghost use Rattle.site_base.specs.Data.{string};
ghost use Rattle.site_base.specs.View.{view};
ghost use Rattle.dsl_value.specs.Walks.{most};
ghost use Rattle.dsl_value.specs.Looking.{Looked};

use crate::{TreeFault, Value};
use site_base::{OutOfMemory, Text, Tree};

/// How many units a tree may cost.
const MOST: usize = 16_777_216;

/// A value that a walk looks at.
#[derive(Drop)]
pub(crate) enum Look {
    /// It holds no others, and this is its tree, with the cost so far.
    Leaf { tree: Tree, cost: usize },
    Cell(u32),
}

/// Looks at a value whose element is counted.
pub(crate) fn look_at(value: &Value, cost: usize) -> Result<Look, TreeFault>
    requires { cost ≤ most }
    ensures { Looked value.now cost result }
{
    match value {
        Value::Null => Ok(Look::Leaf {
            tree: Tree::Null,
            cost,
        }),
        Value::Bool(value) => Ok(Look::Leaf {
            tree: Tree::Bool(*value),
            cost,
        }),
        Value::Number(number) => Ok(Look::Leaf {
            tree: Tree::Number(*number),
            cost,
        }),
        Value::Str(text) => {
            let Some(cost) = charge(cost, text.len()) else {
                return Err(TreeFault::TooLarge);
            };
            let tree = text_tree(text)?;
            Ok(Look::Leaf { tree, cost })
        }
        Value::Ref(cell) => Ok(Look::Cell(*cell)),
        Value::Func(_) => Err(TreeFault::HasFunction),
    }
}

/// The tree of a text.
fn text_tree(text: &Text) -> Result<Tree, OutOfMemory>
    ensures { IfOk result (λ t. view t ≡ string text.now) }
{
    Ok(Tree::Str(text.clone()?))
}

/// The cost with more units; `None` if it is too much.
pub(crate) fn charge(cost: usize, more: usize) -> Option<usize>
    requires { cost ≤ most }
    ensures within { IfSome result (λ c. (c ≡ cost + more) × (c ≤ most)) }
    ensures over { IfNone result (most < cost + more) }
{
    if more > MOST - cost {
        return None;
    }
    Some(cost + more)
}

/// The cost with an element or pair, whose key has so many bytes; `None` if it is too much.
pub(crate) fn charge_element(cost: usize, bytes: usize) -> Option<usize>
    requires { cost ≤ most }
    ensures within { IfSome result (λ c. (c ≡ cost + (1 + bytes)) × (c ≤ most)) }
    ensures over { IfNone result (most < cost + (1 + bytes)) }
{
    if bytes >= MOST - cost {
        return None;
    }
    Some(cost + 1 + bytes)
}
