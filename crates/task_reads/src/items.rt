// Items with their reads.
ghost use Rattle.std.specs.Prelude.{◌≡◌, List, IfOk, map};
ghost use Rattle.site_model.specs.PlainSite.{PlainObject};
ghost use Rattle.eval_meaning.specs.Load.{Loaded};
ghost use Rattle.eval_work.specs.Kept.{PairsNamed};
ghost use Rattle.eval_work.specs.Works.{view_of};
ghost use Rattle.item_start.specs.Ready.{IsLawfulView};
ghost use Rattle.apply_rules.specs.Keys.{AreKeys};
ghost use Rattle.commit_meaning.specs.Items.{item_answer};
ghost use Rattle.commit_meaning.specs.Worlds.{world_view};
ghost use Rattle.wave_order.specs.WaveItems.{IsWaitingIn, plain_pending};
ghost use Rattle.item_body.specs.Plain.{plain_answer};
ghost use Rattle.task_reads.specs.Given.{GivesOnly, item_no};
ghost use Rattle.task_reads.specs.Looks.{IsWithReads, plain_look};

use crate::told::Told;
use crate::{Baker, Look};
use apply_rules::PresetKeys;
use eval_work::WorldView;
use item_body::ItemAnswer;
use site_base::OutOfMemory;
use std::alloc::Global;
use wave_order::Pending;

/// What an item comes to over a world, and its reads with what they found.
///
/// The baker evaluates it over a view that shows no object, and again over one that shows what it asked for, until it is answered.
///
/// # Errors
///
/// `OutOfMemory` if there is none for the answer or for what is made on the way.
pub fn item_with_reads<B: Baker>(
    alloc: Global,
    baker: &mut B,
    world: &WorldView,
    keys: &PresetKeys,
    item: &Pending,
) -> Result<(ItemAnswer, Vec<Look>), OutOfMemory>
    requires lawful { IsLawfulView world.now }
    requires keys { AreKeys keys.now }
    requires named { PairsNamed world.now.store.now (plain_pending item.now).captured }
    requires shared { IsWaitingIn world.now.store.now item.now }
    ensures answer { (load : Loaded) (os : List PlainObject) → view_of world.now ≡ world_view load os
        → IfOk result (λ x. IsWithReads (λ view. item_answer view (plain_pending item.now)) load os (plain_answer x.0) (map plain_look x.1.items)) }
    ensures only { GivesOnly (item_no (plain_pending item.now).number) (B.tasks baker.old) (B.tasks baker.new) }
{
    let mut told = Told::new(alloc);
    for _ in 0..u64::MAX {
        match baker.item(alloc, &told.view(world.store, world.templates), keys, item)? {
            ItemAnswer::Made(object) => return Ok((ItemAnswer::Made(object), told.into_looks())),
            ItemAnswer::Diags(list) => return Ok((ItemAnswer::Diags(list), told.into_looks())),
            ItemAnswer::Blocked(read) => told.decide(world, read)?,
        }
    }
    Err(OutOfMemory)
}
