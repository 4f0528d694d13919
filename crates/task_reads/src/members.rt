// Objects that groups may take, with what their groups read.
ghost use Rattle.std.specs.Prelude.{◌≡◌, List, IfOk, map};
ghost use Rattle.site_model.specs.PlainSite.{PlainObject, object_view};
ghost use Rattle.eval_meaning.specs.Load.{Loaded};
ghost use Rattle.eval_work.specs.Works.{view_of};
ghost use Rattle.item_start.specs.Ready.{IsLawfulView};
ghost use Rattle.group_rules.specs.Lawful.{GroupsNamed};
ghost use Rattle.group_rules.specs.Plain.{group_answer, plain_group};
ghost use Rattle.commit_meaning.specs.Groups.{group_members};
ghost use Rattle.commit_meaning.specs.Worlds.{world_view};
ghost use Rattle.task_reads.specs.Given.{GivesOnly, member_no};
ghost use Rattle.task_reads.specs.Looks.{IsWithReads, plain_look};

use crate::told::Told;
use crate::{Baker, Look};
use eval_work::{Item, Locals, WorldView};
use group_rules::GroupAnswer;
use site_base::OutOfMemory;
use site_model::Object;
use std::alloc::Global;

/// Which of these groups take an object over a world, and their reads with what they found, as [`crate::item_with_reads`] says it of items.
///
/// # Errors
///
/// `OutOfMemory` if there is none for the answer or for what is made on the way.
pub fn member_with_reads<B: Baker>(
    alloc: Global,
    baker: &mut B,
    world: &WorldView,
    groups: &[&Item],
    member: &Object,
    spare: &mut Locals,
) -> Result<(GroupAnswer, Vec<Look>), OutOfMemory>
    requires lawful { IsLawfulView world.now }
    requires groups { GroupsNamed world.now.store.now groups.now }
    ensures answer { (load : Loaded) (os : List PlainObject) → view_of world.now ≡ world_view load os
        → IfOk result (λ x. IsWithReads (λ view. group_members view (map plain_group groups.now) (object_view member.now)) load os (group_answer x.0) (map plain_look x.1.items)) }
    ensures only { GivesOnly (member_no member.now.number) (B.tasks baker.old) (B.tasks baker.new) }
{
    let mut told = Told::new(alloc);
    for _ in 0..u64::MAX {
        match baker.member(
            alloc,
            &told.view(world.store, world.templates),
            groups,
            member,
            spare,
        )? {
            GroupAnswer::Names(names) => return Ok((GroupAnswer::Names(names), told.into_looks())),
            GroupAnswer::Diags(list) => return Ok((GroupAnswer::Diags(list), told.into_looks())),
            GroupAnswer::Blocked(read) => told.decide(world, read)?,
        }
    }
    Err(OutOfMemory)
}
