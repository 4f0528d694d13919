// The groups of a wave's objects.
ghost use Rattle.std.specs.Prelude.{◌≡◌, ◌++◌, ◌∷◌, [], IfOk, OnOk, map};
ghost use Rattle.std.specs.List.{flat_map};
ghost use Rattle.site_model.specs.PlainSite.{object_view};
ghost use Rattle.object_types.specs.Names.{type_named};
ghost use Rattle.eval_work.specs.Works.{view_of, plain_item};
ghost use Rattle.item_start.specs.Ready.{IsLawfulView};
ghost use Rattle.group_rules.specs.Lawful.{GroupsNamed};
ghost use Rattle.group_rules.specs.Plain.{group_answer, plain_group};
ghost use Rattle.commit_meaning.specs.Answers.{diags_in};
ghost use Rattle.commit_meaning.specs.Groups.{grown};
ghost use Rattle.commit_meaning.specs.Waves.{groups_of, group_type};
ghost use Rattle.wave_objects.specs.Captured.{AreNamed};
ghost use Rattle.wave_objects.specs.Members.{AreLists, IsMemberAnswer, ListsNamed, list_for, members_at, members_in};

use crate::making::add_diags;
use dsl_value::Store;
use eval_work::{Item, Locals, WorldView};
use group_growth::grow;
use group_rules::{GroupAnswer, group_members};
use object_types::ObjectType;
use site_base::{Diags, OutOfMemory, Row};
use site_model::Object;
use std::alloc::Global;

/// The items of groups, by the type of their members.
#[derive(Drop)]
pub struct GroupLists<'a> {
    of_hosts: Vec<&'a Item>,
    of_services: Vec<&'a Item>,
    of_users: Vec<&'a Item>,
    none: Vec<&'a Item>,
}

impl<'a> GroupLists<'a> {
    /// The lists of these groups. What they captured names cells and functions of the store.
    ///
    /// # Errors
    ///
    /// `OutOfMemory` if there is too little memory for the lists.
    pub fn new(
        alloc: Global,
        store: &Store,
        groups: &'a [Item],
    ) -> Result<GroupLists<'a>, OutOfMemory>
        requires { AreNamed store.now (map plain_item groups.now) }
        ensures lists { IfOk result (AreLists (map plain_item groups.now)) }
        ensures named { IfOk result (ListsNamed store.now) }
    {
        Ok(GroupLists {
            of_hosts: groups_of_type(alloc, store, groups, ObjectType::HostGroup)?,
            of_services: groups_of_type(alloc, store, groups, ObjectType::ServiceGroup)?,
            of_users: groups_of_type(alloc, store, groups, ObjectType::UserGroup)?,
            none: Vec::new(alloc),
        })
    }

    /// The groups that objects of a type may be in.
    pub fn of(&self, kind: &str) -> &[&'a Item]
        ensures { result.now ≡ list_for self.now (type_named kind.now) }
    {
        match ObjectType::of_name(kind) {
            Some(ObjectType::Host) => &self.of_hosts,
            Some(ObjectType::Service) => &self.of_services,
            Some(ObjectType::User) => &self.of_users,
            _ => &self.none,
        }
    }
}

fn groups_of_type<'a>(
    alloc: Global,
    store: &Store,
    groups: &'a [Item],
    kind: ObjectType,
) -> Result<Vec<&'a Item>, OutOfMemory>
    requires { AreNamed store.now (map plain_item groups.now) }
    ensures groups { IfOk result (λ gs. map plain_group gs.items ≡ groups_of (Some kind) (map plain_item groups.now)) }
    ensures named { IfOk result (λ gs. GroupsNamed store.now gs.items) }
{
    let mut of_type = Vec::new(alloc);
    for group in groups {
        if group.kind.as_str() == kind.name() {
            of_type.push(group)?;
        }
    }
    Ok(of_type)
}

/// Puts objects into the groups of their types that take them, over what stands before their wave.
pub fn join_groups(
    alloc: Global,
    view: &WorldView,
    groups: &[Item],
    objects: Vec<Object>,
    faults: &mut Diags,
) -> Result<Vec<Object>, OutOfMemory>
    requires lawful { IsLawfulView view.now }
    requires named { AreNamed view.now.store.now (map plain_item groups.now) }
    ensures objects { IfOk result (λ os. map object_view os.items ≡ map (λ o. grown o (members_at (view_of view.now) (map plain_item groups.now) o)) (map object_view objects.items)) }
    ensures faults { OnOk result (faults.new ≡ faults.old ++ flat_map (λ o. diags_in (members_at (view_of view.now) (map plain_item groups.now) o)) (map object_view objects.items)) }
{
    let lists = GroupLists::new(alloc, view.store, groups)?;
    let mut spare = Locals::new(alloc);
    let mut grown = Vec::with_capacity(alloc, objects.len())?;
    for object in objects {
        grown.push(join(alloc, view, &lists, object, &mut spare, faults)?)?;
    }
    Ok(grown)
}

/// Puts an object into the groups that take it.
fn join(
    alloc: Global,
    view: &WorldView,
    lists: &GroupLists,
    object: Object,
    spare: &mut Locals,
    faults: &mut Diags,
) -> Result<Object, OutOfMemory>
    requires lawful { IsLawfulView view.now }
    requires named { ListsNamed view.now.store.now lists.now }
    ensures object { IfOk result (λ o. object_view o ≡ grown (object_view object) (members_in (view_of view.now) lists.now (object_view object))) }
    ensures faults { OnOk result (faults.new ≡ faults.old ++ diags_in (members_in (view_of view.now) lists.now (object_view object))) }
{
    let answer = answer_of_member(alloc, view, lists, &object, spare)?;
    join_by(alloc, object, answer, faults)
}

/// What the groups of its type come to for an object. If there are none, nothing is evaluated.
pub(crate) fn answer_of_member(
    alloc: Global,
    view: &WorldView,
    lists: &GroupLists,
    object: &Object,
    spare: &mut Locals,
) -> Result<GroupAnswer, OutOfMemory>
    requires lawful { IsLawfulView view.now }
    requires named { ListsNamed view.now.store.now lists.now }
    ensures { IfOk result (λ a. IsMemberAnswer (view_of view.now) lists.now (object_view object.now) (group_answer a)) }
{
    let groups = lists.of(object.kind.as_str());
    if groups.is_empty() {
        return Ok(GroupAnswer::Names(Row::new(alloc)));
    }
    group_members(alloc, view, groups, object, spare)
}

/// Puts an object into the groups of an answer.
///
/// # Errors
///
/// `OutOfMemory` if there is too little memory for the object's list of groups.
pub fn join_by(
    alloc: Global,
    object: Object,
    answer: GroupAnswer,
    faults: &mut Diags,
) -> Result<Object, OutOfMemory>
    ensures object { IfOk result (λ o. object_view o ≡ grown (object_view object) (group_answer answer)) }
    ensures faults { OnOk result (faults.new ≡ faults.old ++ diags_in (group_answer answer)) }
{
    let mut object = object;
    take_answer(alloc, &mut object, answer, faults)?;
    Ok(object)
}

/// Adds the groups of an answer to an object, or what is wrong. Nothing is added for an answer that is blocked.
fn take_answer(
    alloc: Global,
    object: &mut Object,
    answer: GroupAnswer,
    faults: &mut Diags,
) -> Result<(), OutOfMemory>
    ensures object { OnOk result (object_view object.new ≡ grown (object_view object.old) (group_answer answer)) }
    ensures faults { OnOk result (faults.new ≡ faults.old ++ diags_in (group_answer answer)) }
{
    match answer {
        GroupAnswer::Names(names) => grow(alloc, object, names.as_slice()),
        GroupAnswer::Diags(list) => add_diags(faults, list),
        GroupAnswer::Blocked(_) => Ok(()),
    }
}
