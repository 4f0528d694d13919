// The full names of objects.
ghost use Rattle.std.specs.Prelude.{◌≡◌, ◌++◌, List, ℕ, IfOk, OnOk, Some, None, map, if◌then◌else◌, ◌==◌, ◌∷◌, length, string_bytes};
ghost use Rattle.site_base.specs.View.{view};
ghost use Rattle.eval_meaning.specs.Views.{bang};
ghost use Rattle.object_types.specs.Names.{type_named};
ghost use Rattle.commit_meaning.specs.Names.{owners as owners_in, joined, text_of as attribute_text, full_name_by};

use item_start::text_of;
use object_types::{Attribute, ObjectType};
use site_base::{OutOfMemory, Text, Tree};
use std::alloc::Global;

/// The full name of an object of a type: the names of its host and its service, as far as its attributes set them, and its own,
/// with `!` between. Only services, notifications, scheduled downtimes and dependencies have others than their own name; a dependency
/// has its child's.
pub(crate) fn full_name(
    alloc: Global,
    kind: &str,
    name: &Text,
    tree: &Tree,
) -> Result<Text, OutOfMemory>
    ensures { IfOk result (λ n. n ≡ full_name_by (type_named kind.now) name.now (view tree.now)) }
{
    match ObjectType::of_name(kind) {
        Some(kind) => joined_name(alloc, owners(kind), name, tree),
        None => Ok(name.clone()?),
    }
}

/// What these attributes hold and then a name, with `!` between. An empty string is left out. A name alone is shared.
fn joined_name(
    alloc: Global,
    owners: &[Attribute],
    name: &Text,
    tree: &Tree,
) -> Result<Text, OutOfMemory>
    ensures { IfOk result (λ n. n ≡ joined (map (attribute_text (view tree.now)) owners.now) name.now) }
{
    if owners.is_empty() {
        return Ok(name.clone()?);
    }
    let mut full = String::with_capacity(alloc, room_for(owners, name, tree))?;
    for owner in owners {
        push_owner(&mut full, text_of(tree, *owner))?;
    }
    full.push_str(name.as_str())?;
    Text::of_string(alloc, full)
}

/// How many bytes such a name has at most.
fn room_for(owners: &[Attribute], name: &Text, tree: &Tree) -> usize {
    let mut room = name.len();
    for owner in owners {
        let behind = text_of(tree, *owner).len().saturating_add(1);
        room = room.saturating_add(behind);
    }
    room
}

/// Adds a name and a `!`, and nothing if the name is empty.
fn push_owner(full: &mut String, owner: &str) -> Result<(), OutOfMemory>
    ensures { OnOk result ((more : List ℕ) → string_bytes full.new ++ more ≡ string_bytes full.old ++ (if length owner.now == 0 then more else owner.now ++ bang ∷ more)) }
{
    if owner.is_empty() {
        return Ok(());
    }
    full.push_str(owner)?;
    full.push('!')?;
    Ok(())
}

/// The attributes of a type's objects that name their host and their service.
fn owners(kind: ObjectType) -> &'static [Attribute]
    ensures { result.now ≡ owners_in kind }
{
    match kind {
        ObjectType::Service => &HOST,
        ObjectType::Notification | ObjectType::ScheduledDowntime => &HOST_AND_SERVICE,
        ObjectType::Dependency => &CHILD,
        _ => &[],
    }
}

static HOST: [Attribute; 1] = [Attribute::HostName];

static HOST_AND_SERVICE: [Attribute; 2] = [Attribute::HostName, Attribute::ServiceName];

static CHILD: [Attribute; 2] = [Attribute::ChildHostName, Attribute::ChildServiceName];
