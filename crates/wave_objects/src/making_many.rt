// The objects of a wave's items, by many workers.
ghost use Rattle.std.specs.Prelude.{◌≡◌, ◌++◌, [], IfOk, OnOk, map};
ghost use Rattle.std.specs.List.{filter, flat_map};
ghost use Rattle.site_model.specs.PlainSite.{object_view};
ghost use Rattle.eval_work.specs.Works.{view_of, plain_item};
ghost use Rattle.item_start.specs.Ready.{IsLawfulView};
ghost use Rattle.apply_rules.specs.Keys.{AreKeys};
ghost use Rattle.commit_meaning.specs.Answers.{made_in, diags_in};
ghost use Rattle.commit_meaning.specs.Items.{item_answer};
ghost use Rattle.commit_meaning.specs.Waves.{group_made};
ghost use Rattle.wave_order.specs.WaveItems.{AreWaitingIn, plain_pending};
ghost use Rattle.item_body.specs.Plain.{plain_answer};
ghost use Rattle.wave_objects.specs.Captured.{AreNamed};
ghost use Rattle.wave_objects.specs.Steps.{groups_among};

use crate::answering_many::answer_items;
use crate::making::{Objects, add_answer};
use apply_rules::PresetKeys;
use eval_work::WorldView;
use item_body::ItemAnswer;
use site_base::{OutOfMemory, Row};
use std::alloc::Global;
use std::sync::Wait;
use std::thread::Threads;
use wave_order::Pending;

/// Makes the objects of items as [`crate::make_objects`] does, by so many workers at most. The objects are the same for any number
/// of them, and in whatever order their answers come.
pub fn make_objects_by_many<R: Threads + Wait + Sync>(
    rt: &R,
    alloc: Global,
    view: &WorldView,
    items: Vec<Pending>,
    workers: u32,
) -> Result<Objects, OutOfMemory>
    requires lawful { IsLawfulView view.now }
    requires named { AreNamed view.now.store.now (map plain_pending items.items) }
    requires shared { AreWaitingIn view.now.store.now items.items }
    ensures objects { IfOk result (λ o. map object_view o.objects.items ≡ flat_map (λ i. made_in (item_answer (view_of view.now) i)) (map plain_pending items.entry.items)) }
    ensures groups { IfOk result (λ o. map plain_item o.groups.items ≡ filter (group_made (view_of view.now)) (map plain_pending items.entry.items)) }
    ensures faults { IfOk result (λ o. o.faults ≡ flat_map (λ i. diags_in (item_answer (view_of view.now) i)) (map plain_pending items.entry.items)) }
{
    let keys = PresetKeys::new(alloc)?;
    let answers = answer_items(rt, alloc, view, &keys, &items, workers)?;
    made_of(alloc, &keys, items, answers)
}

/// What items have come to by their answers. There is an answer for each, so this gives up nowhere.
fn made_of(
    alloc: Global,
    keys: &PresetKeys,
    items: Vec<Pending>,
    answers: Vec<ItemAnswer>,
) -> Result<Objects, OutOfMemory>
    requires { AreKeys keys.now }
    ensures objects { IfOk result (λ o. map object_view o.objects.items ≡ flat_map made_in (map plain_answer answers.items)) }
    ensures groups { IfOk result (λ o. map plain_item o.groups.items ≡ groups_among (map plain_answer answers.items) (map plain_pending items.entry.items)) }
    ensures faults { IfOk result (λ o. o.faults ≡ flat_map diags_in (map plain_answer answers.items)) }
{
    let mut made = Objects {
        objects: Vec::new(alloc),
        groups: Vec::new(alloc),
        faults: Row::new(alloc),
    };
    let mut left = items.into_iter();
    for answer in answers {
        let Some(pending) = left.next() else {
            return Err(OutOfMemory);
        };
        add_answer(alloc, keys, pending, answer, &mut made)?;
    }
    Ok(made)
}
