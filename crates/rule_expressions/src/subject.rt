// What the expressions of rules and groups see.
ghost use Rattle.std.specs.Prelude.{◌≡◌, ◌++◌, ◌∷◌, [], OnOk, IfOk, map};
ghost use Rattle.site_base.specs.View.{view};
ghost use Rattle.dsl_value.specs.Contents.{with_cells};
ghost use Rattle.eval_work.specs.Kept.{HasGlobals, IsLater, PairsNamed};
ghost use Rattle.eval_work.specs.Works.{plain_pair};
ghost use Rattle.item_start.specs.Bound.{bound_in};
ghost use Rattle.rule_expressions.specs.Seen.{names_of};

use dsl_value::{Store, Value};
use item_start::bind_tree;
use site_base::{OutOfMemory, Text, Tree, copy_tree};
use std::alloc::Global;

/// What the expressions of a rule or a group see: the attributes of a host, of a service and its host, or of a user.
#[derive(Clone, Copy)]
pub enum Subject<'a> {
    Host(&'a Tree),
    Service { host: &'a Tree, service: &'a Tree },
    User(&'a Tree),
}

/// Binds the names of a subject, behind those that are bound.
pub fn bind_subject(
    alloc: Global,
    store: &mut Store,
    bound: &mut Vec<(Text, Value)>,
    subject: &Subject,
) -> Result<(), OutOfMemory>
    requires globals { HasGlobals store.old }
    requires named { PairsNamed store.old bound.old.items }
    ensures pairs { OnOk result (bound.new.items ≡ (bound_in (names_of subject.now) bound.old.items store.old.cells).pairs) }
    ensures store { OnOk result (store.new ≡ with_cells store.old (bound_in (names_of subject.now) bound.old.items store.old.cells).cells) }
    ensures named { OnOk result (PairsNamed store.new bound.new.items) }
    ensures globals { OnOk result (HasGlobals store.new) }
    ensures later { OnOk result (IsLater store.old store.new) }
{
    match subject {
        Subject::Host(host) => bind_tree(store, bound, Text::copy_of(alloc, "host")?, host),
        Subject::Service { host, service } => {
            bind_tree(store, bound, Text::copy_of(alloc, "host")?, host)?;
            bind_tree(store, bound, Text::copy_of(alloc, "service")?, service)
        }
        Subject::User(user) => bind_tree(store, bound, Text::copy_of(alloc, "user")?, user),
    }
}

/// The names of a subject with copies of their trees.
pub fn named_trees(alloc: Global, subject: &Subject) -> Result<Vec<(Text, Tree)>, OutOfMemory>
    ensures { IfOk result (λ ts. map plain_pair ts.items ≡ names_of subject.now) }
{
    let none = Vec::new(alloc);
    match subject {
        Subject::Host(host) => with_tree(alloc, none, "host", host),
        Subject::Service { host, service } => {
            let first = with_tree(alloc, none, "host", host)?;
            with_tree(alloc, first, "service", service)
        }
        Subject::User(user) => with_tree(alloc, none, "user", user),
    }
}

/// Trees with one more behind them, under a name.
fn with_tree(
    alloc: Global,
    trees: Vec<(Text, Tree)>,
    name: &str,
    tree: &Tree,
) -> Result<Vec<(Text, Tree)>, OutOfMemory>
    ensures { IfOk result (λ ts. map plain_pair ts.items ≡ map plain_pair trees.items ++ (name.now, view tree.now) ∷ []) }
{
    let mut trees = trees;
    trees.push((Text::copy_of(alloc, name)?, copy_tree(alloc, tree)?))?;
    Ok(trees)
}
