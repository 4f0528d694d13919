// The groups of a wave's objects, by many workers.
ghost use Rattle.std.specs.Prelude.{◌≡◌, ◌++◌, IfOk, OnOk, map};
ghost use Rattle.std.specs.List.{AllZip, flat_map};
ghost use Rattle.site_model.specs.PlainSite.{object_view};
ghost use Rattle.eval_work.specs.Works.{view_of, plain_item};
ghost use Rattle.item_start.specs.Ready.{IsLawfulView};
ghost use Rattle.group_rules.specs.Plain.{group_answer};
ghost use Rattle.commit_meaning.specs.Answers.{diags_in};
ghost use Rattle.commit_meaning.specs.Groups.{grown};
ghost use Rattle.wave_objects.specs.Captured.{AreNamed};
ghost use Rattle.wave_objects.specs.Members.{IsMemberAnswer, ListsNamed, grown_by, members_at};

use crate::joining::{GroupLists, answer_of_member, join_by, join_groups};
use crate::lending::each_of;
use commit_board::{Evaluate, answer_all};
use eval_work::{Item, Locals, WorldView};
use group_rules::GroupAnswer;
use site_base::{Diags, OutOfMemory};
use site_model::Object;
use std::alloc::Global;
use std::sync::Wait;
use std::thread::Threads;

/// How many objects a worker claims at a time.
const BATCH: usize = 32;

/// The evaluation of groups for objects, over a view.
#[derive(Drop)]
pub(crate) struct GroupTasks<'a> {
    pub(crate) view: WorldView<'a>,
    pub(crate) lists: &'a GroupLists<'a>,
}

impl<'a, 'b> Evaluate<&'b Object, GroupAnswer> for GroupTasks<'a> {
    ghost use Rattle.site_model.specs.PlainSite.{object_view};
    ghost use Rattle.eval_work.specs.Works.{view_of};
    ghost use Rattle.group_rules.specs.Plain.{group_answer};
    ghost use Rattle.wave_objects.specs.Members.{IsMemberAnswer};
    ghost use Rattle.wave_objects.specs.Tasks.{AreGroupTasks};

    ghost fits = { λ e o. AreGroupTasks e };

    ghost gives = { λ e o a. IsMemberAnswer (view_of e.view) e.lists.now (object_view o.now) (group_answer a) };

    fn answer(&self, alloc: Global, task: &&'b Object) -> Result<GroupAnswer, OutOfMemory> {
        let mut spare = Locals::new(alloc);
        answer_of_member(alloc, &self.view, self.lists, task, &mut spare)
    }
}

/// Puts objects into the groups of their types that take them, as [`crate::join_groups`] does, by so many workers at most. The
/// objects are the same for any number of them, and in whatever order their answers come.
pub fn join_groups_by_many<R: Threads + Wait + Sync>(
    rt: &R,
    alloc: Global,
    view: &WorldView,
    groups: &[Item],
    objects: Vec<Object>,
    faults: &mut Diags,
    workers: u32,
) -> Result<Vec<Object>, OutOfMemory>
    requires lawful { IsLawfulView view.now }
    requires named { AreNamed view.now.store.now (map plain_item groups.now) }
    ensures objects { IfOk result (λ os. map object_view os.items ≡ map (λ o. grown o (members_at (view_of view.now) (map plain_item groups.now) o)) (map object_view objects.items)) }
    ensures faults { OnOk result (faults.new ≡ faults.old ++ flat_map (λ o. diags_in (members_at (view_of view.now) (map plain_item groups.now) o)) (map object_view objects.items)) }
{
    if groups.is_empty() {
        return join_groups(alloc, view, groups, objects, faults);
    }
    let lists = GroupLists::new(alloc, view.store, groups)?;
    let answers = answer_members(rt, alloc, view, &lists, &objects, workers)?;
    joined_of(alloc, objects, answers, faults)
}

/// What the groups of its type come to for each object, in the objects' order. So many workers make it at most.
fn answer_members<R: Threads + Wait + Sync>(
    rt: &R,
    alloc: Global,
    view: &WorldView,
    lists: &GroupLists,
    objects: &[Object],
    workers: u32,
) -> Result<Vec<GroupAnswer>, OutOfMemory>
    requires lawful { IsLawfulView view.now }
    requires named { ListsNamed view.now.store.now lists.now }
    ensures { IfOk result (λ answers. AllZip (λ o a. IsMemberAnswer (view_of view.now) lists.now (object_view o) (group_answer a)) objects.now answers.items) }
{
    let tasks = each_of(alloc, objects)?;
    let evaluate = GroupTasks { view: *view, lists };
    answer_all(rt, alloc, &evaluate, tasks, workers, BATCH)
}

/// Objects in the groups of their answers. There is an answer for each, so this gives up nowhere.
fn joined_of(
    alloc: Global,
    objects: Vec<Object>,
    answers: Vec<GroupAnswer>,
    faults: &mut Diags,
) -> Result<Vec<Object>, OutOfMemory>
    ensures objects { IfOk result (λ os. map object_view os.items ≡ grown_by (map group_answer answers.items) (map object_view objects.items)) }
    ensures faults { OnOk result (faults.new ≡ faults.old ++ flat_map diags_in (map group_answer answers.items)) }
{
    let mut joined = Vec::with_capacity(alloc, objects.len())?;
    let mut left = objects.into_iter();
    for answer in answers {
        let Some(object) = left.next() else {
            return Err(OutOfMemory);
        };
        joined.push(join_by(alloc, object, answer, faults)?)?;
    }
    Ok(joined)
}
