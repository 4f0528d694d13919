// The references of all objects.
ghost use Rattle.std.specs.Prelude.{◌≡◌, ◌++◌, [], map, IfOk, OnOk, Some};
ghost use Rattle.site_base.specs.View.{view};
ghost use Rattle.site_model.specs.PlainSite.{object_view};
ghost use Rattle.object_types.specs.Names.{type_named};
ghost use Rattle.conf_check.specs.Keys.{in_keys};
ghost use Rattle.conf_check.specs.Ordering.{IsByNumber};
ghost use Rattle.conf_check.specs.References.{reference_faults, objects_faults, tree_faults, item_of};

use crate::keys::{Keys, keys_of};
use crate::names::{Item, push_pairs};
use crate::ordering::by_number;
use crate::told::Told;
use object_types::ObjectType;
use site_base::{Diags, OutOfMemory, Tree};
use site_model::Object;
use std::alloc::Global;

/// What the objects of a site name and isn't among them: a `NoReference` at the item of each such name, with the attribute
/// and the full name.
///
/// The diagnostics go by the items' numbers. Those of one object stand in the order of its attributes, which is that
/// of bytes, and then in a list's order. An attribute that holds null or the empty string names nothing; an empty string in
/// a list is a name. A service is named by the full name that it has with its host, so where the host is missing
/// both attributes are told.
pub fn references(alloc: Global, objects: &[Object]) -> Result<Diags, OutOfMemory>
    ensures { IfOk result (IsByNumber (reference_faults (map object_view objects.now))) }
{
    let keys = keys_of(alloc, objects)?;
    let faults = faults_of(alloc, &keys, objects)?;
    by_number(faults)
}

/// What objects name that no key has, in their order.
pub(crate) fn faults_of(
    alloc: Global,
    keys: &Keys,
    objects: &[Object],
) -> Result<Diags, OutOfMemory>
    ensures { IfOk result (λ faults. faults
        ≡ objects_faults (in_keys keys.now) (map object_view objects.now)) }
{
    let mut told = Told::new(alloc);
    for object in objects {
        let item = Item {
            number: object.number,
            place: object.place,
        };
        let kind = ObjectType::of_name(object.kind.as_str());
        push_tree(alloc, &mut told, keys, item, kind, &object.tree)?;
    }
    Ok(told.into_faults())
}

/// Adds what the tree of an object names, if its type is one of the schema.
fn push_tree(
    alloc: Global,
    out: &mut Told,
    keys: &Keys,
    item: Item,
    kind: Option<ObjectType>,
    tree: &Tree,
) -> Result<(), OutOfMemory>
    ensures { OnOk result (out.new ≡ out.old ++ tree_faults (in_keys keys.now) item kind (view tree.now)) }
{
    match kind {
        Some(kind) => push_dict(alloc, out, keys, item, kind, tree),
        None => Ok(()),
    }
}

/// Adds what the attributes of an object name, which are a dictionary.
fn push_dict(
    alloc: Global,
    out: &mut Told,
    keys: &Keys,
    item: Item,
    kind: ObjectType,
    tree: &Tree,
) -> Result<(), OutOfMemory>
    ensures { OnOk result (out.new ≡ out.old ++ tree_faults (in_keys keys.now) item (Some kind) (view tree.now)) }
{
    match tree {
        Tree::Dict(pairs) => push_pairs(alloc, out, keys, item, kind, pairs),
        _ => Ok(()),
    }
}
