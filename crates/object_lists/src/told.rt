// Whom a notification tells.
ghost use Rattle.std.specs.Prelude.{◌≡◌, ◌++◌, ℕ, List, [], map, IfOk, OnOk};
ghost use Rattle.std.specs.List.{flat_map};
ghost use Rattle.std.specs.Option.{option_copied, option_to_list, option_and_then};
ghost use Rattle.site_base.specs.View.{view, items_view};
ghost use Rattle.object_values.specs.Values.{texts_of};
ghost use Rattle.object_lists.specs.Listed.{at_some};
ghost use Rattle.object_lists.specs.Members.{AreMembers};
ghost use Rattle.object_lists.specs.Receivers.{with_new, receivers as told_by, users_named, members_named, user_named};
ghost use Rattle.object_lists.specs.Users.{members};

use crate::members::Members;
use indexmap::IndexSet;
use object_types::{Attribute, ObjectType};
use object_values::{Attributes, text_of};
use site_base::{OutOfMemory, Row, Tree};
use site_model::Names;
use std::alloc::Global;

/// The users that a notification names, and then the members of the groups that it names, each once.
pub fn receivers(
    alloc: Global,
    users: &Names,
    groups: &Members,
    tree: &Tree,
) -> Result<Row<u32>, OutOfMemory>
    ensures { (ms : List (List ℕ × ℕ)) → AreMembers ms groups.now
        → IfOk result (λ r. r ≡ told_by users.now ms (view tree.now)) }
{
    let set = Attributes {
        kind: ObjectType::Notification,
        tree,
    };
    let mut told = nobody(alloc);
    add_users(&mut told, users, set.names(Attribute::Users))?;
    add_groups(&mut told, groups, set.names(Attribute::UserGroups))?;
    Ok(Row::from(Vec::from_slice(alloc, told.as_slice())?))
}

/// No user.
fn nobody(alloc: Global) -> IndexSet<u32>
    ensures { result.keys ≡ [] }
{
    IndexSet::new(alloc)
}

/// Adds the users that the strings of an array name.
fn add_users(told: &mut IndexSet<u32>, users: &Names, named: &[Tree]) -> Result<(), OutOfMemory>
    ensures { OnOk result (told.new.keys ≡ with_new told.old.keys (users_named users.now (texts_of (items_view named.now)))) }
{
    for item in named {
        add_user(told, users, text_of(item))?;
    }
    Ok(())
}

fn add_user(told: &mut IndexSet<u32>, users: &Names, name: Option<&str>) -> Result<(), OutOfMemory>
    ensures { OnOk result (told.new.keys ≡ with_new told.old.keys (at_some (user_named users.now) (option_copied name.entry))) }
{
    let Some(name) = name else {
        return Ok(());
    };
    if let Some(user) = users.find(name) {
        told.insert(user)?;
    }
    Ok(())
}

/// Adds the members of the groups that the strings of an array name.
fn add_groups(told: &mut IndexSet<u32>, groups: &Members, named: &[Tree]) -> Result<(), OutOfMemory>
    ensures { (ms : List (List ℕ × ℕ)) → AreMembers ms groups.now
        → OnOk result (told.new.keys ≡ with_new told.old.keys (members_named ms (texts_of (items_view named.now)))) }
{
    for item in named {
        add_group(told, groups, text_of(item))?;
    }
    Ok(())
}

fn add_group(
    told: &mut IndexSet<u32>,
    groups: &Members,
    name: Option<&str>,
) -> Result<(), OutOfMemory>
    ensures { (ms : List (List ℕ × ℕ)) → AreMembers ms groups.now
        → OnOk result (told.new.keys ≡ with_new told.old.keys (at_some (members ms) (option_copied name.entry))) }
{
    match name {
        Some(name) => add_numbers(told, groups.of(name)),
        None => Ok(()),
    }
}

fn add_numbers(told: &mut IndexSet<u32>, users: &[u32]) -> Result<(), OutOfMemory>
    ensures { OnOk result (told.new.keys ≡ with_new told.old.keys users.now) }
{
    for user in users {
        told.insert(*user)?;
    }
    Ok(())
}
