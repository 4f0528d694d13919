// The items of a wave, whose rules many workers apply.
ghost use Rattle.std.specs.Prelude.{◌≡◌, IfOk, map};
ghost use Rattle.std.specs.List.{flat_map};
ghost use Rattle.site_model.specs.PlainSite.{object_view};
ghost use Rattle.eval_work.specs.Kept.{RulesNamed};
ghost use Rattle.eval_work.specs.Works.{view_of};
ghost use Rattle.item_start.specs.Ready.{IsLawfulView};
ghost use Rattle.dsl_load.specs.Loads.{plain_parts};
ghost use Rattle.commit_meaning.specs.Answers.{diags_in};
ghost use Rattle.commit_meaning.specs.Waves.{wave_items, wave_answers};
ghost use Rattle.commit_meaning.specs.Worlds.{world_view};
ghost use Rattle.wave_order.specs.WaveItems.{AreWaitingIn, plain_pending};
ghost use Rattle.wave_objects.specs.Plain.{with_items};
ghost use Rattle.wave_objects.specs.Steps.{over};

use crate::applying::unapplied;
use crate::applying_many::apply_to_all_by_many;
use crate::gathering::{Gathered, put_together};
use dsl_load::LoadParts;
use eval_work::{Committed, Item, WorldView};
use site_base::OutOfMemory;
use std::alloc::Global;
use std::sync::Wait;
use std::thread::Threads;

/// Gathers the items of a wave as [`crate::gather`] does. So many workers at most evaluate its rules. The items are the same for
/// any number of them, and in whatever order their answers come.
pub fn gather_by_many<'a, R: Threads + Wait + Sync>(
    rt: &R,
    alloc: Global,
    view: &WorldView,
    parts: &'a LoadParts,
    items: Vec<Item>,
    objects: &'a Committed,
    wave: u8,
    workers: u32,
) -> Result<Gathered<'a>, OutOfMemory>
    requires lawful { IsLawfulView view.now }
    requires captured { RulesNamed view.now.store.now parts.now.rules.items }
    requires view { view_of view.now ≡ world_view (plain_parts parts.now) (map object_view objects.now) }
    ensures items { IfOk result (λ g. map plain_pending g.items.items ≡ wave_items (plain_parts (with_items items parts.now)) (over objects.now) wave) }
    ensures faults { IfOk result (λ g. g.faults ≡ flat_map diags_in (wave_answers (plain_parts (with_items items parts.now)) (over objects.now) wave)) }
    ensures shared { IfOk result (λ g. AreWaitingIn view.now.store.now g.items.items) }
{
    let mut rules = unapplied(alloc, &parts.rules, wave)?;
    apply_to_all_by_many(rt, alloc, view, objects, &mut rules, workers)?;
    put_together(alloc, items, rules, wave)
}
