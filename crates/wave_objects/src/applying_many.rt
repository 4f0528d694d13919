// What the rules of a wave make of all their targets, by many workers.
ghost use Rattle.std.specs.Prelude.{◌≡◌, ℕ, List, length, IfOk, OnOk, map};
ghost use Rattle.std.specs.List.{AllByRecursion, AllZip};
ghost use Rattle.site_model.specs.PlainSite.{object_view};
ghost use Rattle.dsl_value.specs.Contents.{Contents};
ghost use Rattle.eval_work.specs.Works.{view_of};
ghost use Rattle.item_start.specs.Ready.{IsLawfulView};
ghost use Rattle.wave_objects.specs.Applying.{AppliedNamed, AppliedShared, AreApplied, AreNew, AreWithin, HaveTaken, rules_of};
ghost use Rattle.wave_objects.specs.AtTargets.{AreAnswersShared, PlacedNamed, plain_placed};
ghost use Rattle.wave_objects.specs.ByType.{type_rules};
ghost use Rattle.wave_objects.specs.Tasks.{AreOfObject, all_placed};

use crate::applying::{Applied, apply_to_all, take_answers};
use crate::at_targets::{PlacedAnswer, answers_at_object};
use crate::by_type::{RulesOfType, rules_by_type};
use crate::lending::each_of;
use commit_board::{Evaluate, answer_all};
use eval_work::{Committed, Locals, WorldView};
use site_base::OutOfMemory;
use site_model::Object;
use std::alloc::Global;
use std::sync::Wait;
use std::thread::Threads;

/// How many objects a worker claims at a time.
const BATCH: usize = 16;

/// The evaluation of the rules of a wave at objects, over a view.
#[derive(Drop)]
pub(crate) struct RuleTasks<'v, 'a> {
    pub(crate) view: WorldView<'v>,
    pub(crate) objects: &'a Committed,
    pub(crate) types: &'v [RulesOfType<'a>],
}

impl<'v, 'a> Evaluate<&'a Object, Vec<PlacedAnswer<'a>>> for RuleTasks<'v, 'a> {
    ghost use Rattle.wave_objects.specs.Tasks.{AreOfObject, AreRuleTasks};

    ghost fits = { λ e o. AreRuleTasks e };

    ghost gives = { λ e o answers. AreOfObject e.view e.objects.now e.types.now o.now answers };

    fn answer(
        &self,
        alloc: Global,
        task: &&'a Object,
    ) -> Result<Vec<PlacedAnswer<'a>>, OutOfMemory> {
        let mut spare = Locals::new(alloc);
        let answers = answers_at_object(
            alloc,
            &self.view,
            self.objects,
            *task,
            self.types,
            &mut spare,
        )?;
        Ok(answers)
    }
}

/// Applies rules to all objects that are their targets, as [`crate::applying::apply_to_all`] does, by so many workers at most. What
/// they make is the same for any number of them, and in whatever order their answers come.
pub(crate) fn apply_to_all_by_many<'a, R: Threads + Wait + Sync>(
    rt: &R,
    alloc: Global,
    view: &WorldView,
    objects: &'a Committed,
    rules: &mut Vec<Applied<'a>>,
    workers: u32,
) -> Result<(), OutOfMemory>
    requires lawful { IsLawfulView view.now }
    requires named { AppliedNamed view.now.store.now rules.old.items }
    requires new { AreNew rules.old.items }
    ensures rules { OnOk result (rules_of rules.new.items ≡ rules_of rules.old.items) }
    ensures applied { OnOk result (AreApplied (view_of view.now) (map object_view objects.now) rules.new.items) }
    ensures shared { OnOk result (AppliedShared view.now.store.now rules.new.items) }
{
    if rules.is_empty() {
        return apply_to_all(alloc, view, objects, rules);
    }
    let types = rules_by_type(alloc, rules)?;
    let answers = answers_at_objects(rt, alloc, view, objects, &types, workers)?;
    take_all(answers, rules)?;
    Ok(())
}

/// What the rules of a wave come to at each object, in the objects' order. So many workers make it at most.
fn answers_at_objects<'a, R: Threads + Wait + Sync>(
    rt: &R,
    alloc: Global,
    view: &WorldView,
    objects: &'a Committed,
    types: &[RulesOfType<'a>],
    workers: u32,
) -> Result<Vec<Vec<PlacedAnswer<'a>>>, OutOfMemory>
    requires lawful { IsLawfulView view.now }
    requires named { (kind : List ℕ) → PlacedNamed view.now.store.now (type_rules kind types.now) }
    ensures { IfOk result (λ answers. AllZip (AreOfObject view.now objects.now types.now) objects.now answers.items) }
{
    let tasks = each_of(alloc, objects.as_slice())?;
    let evaluate = RuleTasks {
        view: *view,
        objects,
        types,
    };
    answer_all(rt, alloc, &evaluate, tasks, workers, BATCH)
}

/// Has rules take the answers at one object after another.
fn take_all<'a>(
    answers: Vec<Vec<PlacedAnswer<'a>>>,
    rules: &mut Vec<Applied<'a>>,
) -> Result<(), OutOfMemory>
    requires { AllByRecursion (λ answers. AreWithin (length rules.old.items) (map plain_placed answers.items)) answers.items }
    ensures taken { OnOk result (HaveTaken 0 (all_placed answers.entry.items) rules.old.items rules.new.items) }
    ensures shared { (s : Contents) → AppliedShared s rules.old.items → AllByRecursion (λ answers. AreAnswersShared s answers.items) answers.entry.items → OnOk result (AppliedShared s rules.new.items) }
{
    for at_object in answers {
        take_answers(at_object, rules)?;
    }
    Ok(())
}
