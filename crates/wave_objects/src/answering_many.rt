// What the items of a wave come to, by many workers.
ghost use Rattle.std.specs.Prelude.{◌≡◌, IfOk, map};
ghost use Rattle.eval_work.specs.Works.{view_of};
ghost use Rattle.item_start.specs.Ready.{IsLawfulView};
ghost use Rattle.apply_rules.specs.Keys.{AreKeys};
ghost use Rattle.commit_meaning.specs.Items.{item_answer};
ghost use Rattle.wave_order.specs.WaveItems.{AreWaitingIn, plain_pending};
ghost use Rattle.item_body.specs.Plain.{plain_answer};
ghost use Rattle.wave_objects.specs.Captured.{AreNamed};

use crate::answering::answer_of;
use crate::lending::each_of;
use apply_rules::PresetKeys;
use commit_board::{Evaluate, answer_all};
use eval_work::WorldView;
use item_body::ItemAnswer;
use site_base::OutOfMemory;
use std::alloc::Global;
use std::sync::Wait;
use std::thread::Threads;
use wave_order::Pending;

/// How many items a worker claims at a time.
const BATCH: usize = 32;

/// The evaluation of items over a view.
#[derive(Drop)]
pub(crate) struct ItemTasks<'a> {
    pub(crate) view: WorldView<'a>,
    pub(crate) keys: &'a PresetKeys,
}

impl<'a, 'b, 'c> Evaluate<&'b Pending<'c>, ItemAnswer> for ItemTasks<'a> {
    ghost use Rattle.std.specs.Prelude.{◌≡◌};
    ghost use Rattle.eval_work.specs.Works.{view_of};
    ghost use Rattle.commit_meaning.specs.Items.{item_answer};
    ghost use Rattle.item_body.specs.Plain.{plain_answer};
    ghost use Rattle.wave_order.specs.WaveItems.{plain_pending};
    ghost use Rattle.wave_objects.specs.Tasks.{IsItemTask};

    ghost fits = { λ e p. IsItemTask e p.now };

    ghost gives = { λ e p a. plain_answer a ≡ item_answer (view_of e.view) (plain_pending p.now) };

    fn answer(&self, alloc: Global, task: &&'b Pending<'c>) -> Result<ItemAnswer, OutOfMemory> {
        answer_of(alloc, &self.view, self.keys, task)
    }
}

/// What items come to when their turn has come, in their order. So many workers make it at most, and it is the same for any number of them.
pub(crate) fn answer_items<R: Threads + Wait + Sync>(
    rt: &R,
    alloc: Global,
    view: &WorldView,
    keys: &PresetKeys,
    items: &[Pending],
    workers: u32,
) -> Result<Vec<ItemAnswer>, OutOfMemory>
    requires lawful { IsLawfulView view.now }
    requires keys { AreKeys keys.now }
    requires named { AreNamed view.now.store.now (map plain_pending items.now) }
    requires shared { AreWaitingIn view.now.store.now items.now }
    ensures { IfOk result (λ answers. map plain_answer answers.items ≡ map (item_answer (view_of view.now)) (map plain_pending items.now)) }
{
    let tasks = each_of(alloc, items)?;
    let evaluate = ItemTasks { view: *view, keys };
    answer_all(rt, alloc, &evaluate, tasks, workers, BATCH)
}
