// The members of user groups.
ghost use Rattle.std.specs.Prelude.{◌≡◌, ◌<◌, ◌≤◌, ◌^◌, ◌++◌, ◌∷◌, [], ℕ, List, Some, None, IfOk, OnOk, length, slice_set};
ghost use Rattle.std.specs.Option.{option_copied, option_to_list};
ghost use Rattle.site_base.specs.View.{items_view};
ghost use Rattle.site_model.specs.Names.{place_of};
ghost use Rattle.object_values.specs.Values.{texts_of};
ghost use Rattle.object_lists.specs.Listed.{lent_view};
ghost use Rattle.object_lists.specs.Members.{AreMembers, list_at};
ghost use Rattle.object_lists.specs.Users.{in_groups, members, memberships_from};

use crate::group_names::GroupNames;
use object_types::{Attribute, ObjectType};
use object_values::{Attributes, text_of};
use site_base::{OutOfMemory, Row, Tree};
use site_model::Object;
use std::alloc::Global;

/// The groups of users by their names, each with the places of its members in their order.
#[derive(Drop)]
pub struct Members {
    names: GroupNames,
    lists: Vec<Row<u32>>,
}

/// The groups that these users are in. There are at most 4,294,967,296 users, so each has a place; of groups there may be more.
pub fn members_of(alloc: Global, users: &[&Object]) -> Result<Members, OutOfMemory>
    requires few { length users.now ≤ 2 ^ 32 }
    ensures { IfOk result (AreMembers (memberships_from 0 (lent_view users.now))) }
{
    let mut members = Members {
        names: GroupNames::new(alloc),
        lists: Vec::new(alloc),
    };
    for place in 0..users.len() {
        let set = Attributes {
            kind: ObjectType::User,
            tree: &users[place].tree,
        };
        members.add_all(alloc, place as u32, set.names(Attribute::Groups))?;
    }
    Ok(members)
}

impl Members {
    /// The members of a group.
    pub(crate) fn of(&self, group: &str) -> &[u32]
        ensures { (ms : List (List ℕ × ℕ)) → AreMembers ms self.now → result.now ≡ members ms group.now }
    {
        match self.names.find(group) {
            Some(place) => self.at(place),
            None => &[],
        }
    }

    /// The members of the group at this place.
    fn at(&self, place: usize) -> &[u32]
        ensures { result.now ≡ list_at self.now.lists.items place }
    {
        match self.lists.get(place) {
            Some(list) => list.as_slice(),
            None => &[],
        }
    }

    /// Adds a user to the groups that the strings of an array name.
    fn add_all(&mut self, alloc: Global, user: u32, groups: &[Tree]) -> Result<(), OutOfMemory>
        ensures { (ms : List (List ℕ × ℕ)) → AreMembers ms self.old
            → OnOk result (AreMembers (ms ++ in_groups user (texts_of (items_view groups.now))) self.new) }
    {
        for group in groups {
            self.add_named(alloc, user, text_of(group))?;
        }
        Ok(())
    }

    fn add_named(
        &mut self,
        alloc: Global,
        user: u32,
        group: Option<&str>,
    ) -> Result<(), OutOfMemory>
        ensures { (ms : List (List ℕ × ℕ)) → AreMembers ms self.old
            → OnOk result (AreMembers (ms ++ in_groups user (option_to_list (option_copied group.entry))) self.new) }
    {
        match group {
            Some(group) => self.add(alloc, user, group),
            None => Ok(()),
        }
    }

    /// Adds a user to a group.
    fn add(&mut self, alloc: Global, user: u32, group: &str) -> Result<(), OutOfMemory>
        ensures { (ms : List (List ℕ × ℕ)) → AreMembers ms self.old
            → OnOk result (AreMembers (ms ++ (group.now, user) ∷ []) self.new) }
    {
        let place = self.place(alloc, group)?;
        if place < self.lists.len() {
            push_at(&mut self.lists, place, user)?;
        }
        Ok(())
    }

    /// The place of a group, which is added without members if it isn't there.
    fn place(&mut self, alloc: Global, group: &str) -> Result<usize, OutOfMemory>
        ensures place { IfOk result (λ k. place_of group.now self.new.names ≡ Some k) }
        ensures same { (ms : List (List ℕ × ℕ)) → AreMembers ms self.old → OnOk result (AreMembers ms self.new) }
    {
        match self.names.find(group) {
            Some(place) => Ok(place),
            None => self.new_place(alloc, group),
        }
    }

    fn new_place(&mut self, alloc: Global, group: &str) -> Result<usize, OutOfMemory>
        requires { place_of group.now self.old.names ≡ None }
        ensures place { IfOk result (λ k. place_of group.now self.new.names ≡ Some k) }
        ensures same { (ms : List (List ℕ × ℕ)) → AreMembers ms self.old → OnOk result (AreMembers ms self.new) }
    {
        let place = self.names.add(String::from_str(alloc, group)?)?;
        self.lists.push(Row::new(alloc))?;
        Ok(place)
    }
}

/// Adds a number behind the list of this place.
fn push_at(lists: &mut Vec<Row<u32>>, place: usize, number: u32) -> Result<(), OutOfMemory>
    requires { place < length lists.old.items }
    ensures { OnOk result (lists.new.items
        ≡ slice_set lists.old.items place (list_at lists.old.items place ++ number ∷ [])) }
{
    lists[place].push(number)
}
