// The values of macros.
ghost use Rattle.std.specs.Prelude.{◌≡◌};
ghost use Rattle.site_base.specs.View.{view, pairs_view};
ghost use Rattle.command_macros.specs.Lookups.{pairs_in as pairs_in_data, pairs_of as pairs_of_found, value_at as value_of_key, value_of as value_of_macro, value_of_name as value_by_name, value_of_path as value_by_path, value_of_object as value_in_object, value_along as value_on_path, or_else as first_found, parts};
ghost use Rattle.command_macros.specs.Returns.{tree_found};
ghost use Rattle.command_macros.specs.Scopes.{scope_view, source_view};

use crate::cutting::cut;
use crate::scope::{Scope, Source};
use site_base::{Text, Tree};

/// The value of a macro of this name; `None` if nothing has it.
pub(crate) fn value_of<'a>(scope: &Scope<'a>, name: &str) -> Option<&'a Tree>
    ensures { tree_found result ≡ value_of_macro (scope_view scope.now) name.now }
{
    let Some((first, path)) = cut(name, '.') else {
        return value_of_name(scope, name);
    };
    value_of_path(scope, name, first, path)
}

/// The value of a name with a dot: of a path behind `service`, `host` or `command`, or of the name as a whole.
fn value_of_path<'a>(scope: &Scope<'a>, name: &str, first: &str, path: &str) -> Option<&'a Tree>
    ensures { tree_found result ≡ value_by_path (scope_view scope.now) name.now first.now (parts path.now) }
{
    if first == "service" {
        return value_along(scope.service.attributes, path);
    }
    if first == "host" {
        return value_along(scope.host.attributes, path);
    }
    if first == "command" {
        return value_along(scope.command.attributes, path);
    }
    value_of_name(scope, name)
}

/// The value that is found first: of the service, the host, the command, and the global `Vars`.
fn value_of_name<'a>(scope: &Scope<'a>, name: &str) -> Option<&'a Tree>
    ensures { tree_found result ≡ value_by_name (scope_view scope.now) name.now }
{
    if let Some(value) = value_of_object(&scope.service, name) {
        return Some(value);
    }
    if let Some(value) = value_of_object(&scope.host, name) {
        return Some(value);
    }
    if let Some(value) = value_of_object(&scope.command, name) {
        return Some(value);
    }
    value_at(scope.globals, name)
}

/// The value among an object's `vars`, or else among its attributes.
fn value_of_object<'a>(object: &Source<'a>, name: &str) -> Option<&'a Tree>
    ensures { tree_found result ≡ value_in_object (source_view object.now) name.now }
{
    match value_at(object.vars, name) {
        Some(value) => Some(value),
        None => value_at(object.attributes, name),
    }
}

/// The value along a path of keys with dots between them, from these pairs on.
fn value_along<'a>(pairs: &'a [(Text, Tree)], path: &str) -> Option<&'a Tree>
    ensures { tree_found result ≡ value_on_path (parts path.now) (pairs_view pairs.now) }
{
    let mut pairs = pairs;
    let mut path = path;
    while let Some((key, rest)) = cut(path, '.') {
        pairs = pairs_of(value_at(pairs, key));
        path = rest;
    }
    value_at(pairs, path)
}

/// The pairs of a value that is a dictionary; none of another, and none without a value.
pub(crate) fn pairs_of<'a>(value: Option<&'a Tree>) -> &'a [(Text, Tree)]
    ensures { pairs_view result.now ≡ pairs_of_found (tree_found value.entry) }
{
    match value {
        None => &[],
        Some(tree) => pairs_in(tree),
    }
}

/// The pairs of a dictionary; none of anything else.
#[tactic(auto, using(crate::proofs::TreeViews::view_null, crate::proofs::TreeViews::view_bool, crate::proofs::TreeViews::view_number, crate::proofs::TreeViews::view_str, crate::proofs::TreeViews::view_list, crate::proofs::TreeViews::view_dict))]
pub(crate) fn pairs_in(tree: &Tree) -> &[(Text, Tree)]
    ensures { pairs_view result.now ≡ pairs_in_data (view tree.now) }
{
    match tree {
        Tree::Dict(pairs) => pairs,
        Tree::Null | Tree::Bool(_) | Tree::Number(_) | Tree::Str(_) | Tree::List(_) => &[],
    }
}

/// The value of a key.
pub(crate) fn value_at<'a>(pairs: &'a [(Text, Tree)], key: &str) -> Option<&'a Tree>
    ensures { tree_found result ≡ value_of_key key.now (pairs_view pairs.now) }
{
    for pair in pairs {
        if key == pair.0.as_str() {
            return Some(&pair.1);
        }
    }
    None
}
