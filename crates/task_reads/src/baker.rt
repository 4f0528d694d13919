// Who evaluates tasks.
ghost use Rattle.std.specs.Prelude.{◌≡◌, ◌++◌, [], ◌∷◌, List, IfOk, OnOk, map};
ghost use Rattle.site_model.specs.PlainSite.{object_view};
ghost use Rattle.eval_work.specs.Kept.{PairsNamed};
ghost use Rattle.eval_work.specs.Works.{view_of, plain_rule};
ghost use Rattle.item_start.specs.Ready.{IsLawfulView};
ghost use Rattle.apply_rules.specs.Keys.{AreKeys};
ghost use Rattle.apply_rules.specs.Lawful.{IsApplicable};
ghost use Rattle.apply_rules.specs.Plain.{plain_target, rule_answer};
ghost use Rattle.apply_rules.specs.Sharing.{IsAnswerShared};
ghost use Rattle.group_rules.specs.Lawful.{GroupsNamed};
ghost use Rattle.group_rules.specs.Plain.{group_answer, plain_group};
ghost use Rattle.commit_meaning.specs.Groups.{group_members as members_of};
ghost use Rattle.commit_meaning.specs.Items.{item_answer};
ghost use Rattle.commit_meaning.specs.Rules.{instances as instances_of, pair_number};
ghost use Rattle.wave_order.specs.WaveItems.{IsWaitingIn, plain_pending};
ghost use Rattle.item_body.specs.Plain.{plain_answer};
ghost use Rattle.task_reads.specs.Given.{GivesOnly, item_no, member_no, pair_no};
ghost use Rattle.task_reads.specs.declared.task_no.TaskNo.{TaskNo as Given};

use crate::task_no::number_of_pair;
use crate::{TaskKind, TaskNo};
use apply_rules::{PreparedTarget, PresetKeys, RuleAnswer, Target, instances};
use eval_work::{Item, Locals, Rule, WorldView};
use group_rules::{GroupAnswer, group_members};
use item_body::ItemAnswer;
use site_base::{ItemNo, OutOfMemory};
use site_model::Object;
use std::alloc::Global;
use wave_objects::answer_of;
use wave_order::Pending;

/// Who evaluates the tasks of a commit that aren't kept. Clauses see a baker as the list of the tasks that it was given.
pub trait Baker {
    ghost tasks: { Self → List Given };

    /// What an item comes to over a view, as `run_item` (item_body) says.
    fn item(
        &mut self,
        alloc: Global,
        view: &WorldView,
        keys: &PresetKeys,
        item: &Pending,
    ) -> Result<ItemAnswer, OutOfMemory>
        requires lawful { IsLawfulView view.now }
        requires keys { AreKeys keys.now }
        requires named { PairsNamed view.now.store.now (plain_pending item.now).captured }
        requires shared { IsWaitingIn view.now.store.now item.now }
        ensures answer { IfOk result (λ a. plain_answer a ≡ item_answer (view_of view.now) (plain_pending item.now)) }
        ensures task { OnOk result (tasks self.new ≡ tasks self.old ++ item_no (plain_pending item.now).number ∷ []) }
        ensures only { GivesOnly (item_no (plain_pending item.now).number) (tasks self.old) (tasks self.new) };

    /// What a rule comes to at a target over a view, as `instances` (apply_rules) says. The target was prepared for the view's store.
    fn rule<'a>(
        &mut self,
        alloc: Global,
        view: &WorldView,
        rule: &'a Rule,
        target: &Target<'a>,
        prepared: &PreparedTarget<'a>,
        spare: &mut Locals,
    ) -> Result<RuleAnswer<'a>, OutOfMemory>
        requires applicable { IsApplicable view.now rule.now prepared.now }
        requires prepared { prepared.now.target ≡ target.now }
        ensures answer { IfOk result (λ a. rule_answer a ≡ instances_of (view_of view.now) (plain_rule rule.now) (plain_target target.now)) }
        ensures shared { IfOk result (IsAnswerShared view.now.store.now) }
        ensures task { OnOk result (tasks self.new ≡ tasks self.old ++ pair_no (pair_number (plain_rule rule.now) (plain_target target.now)) ∷ []) }
        ensures only { GivesOnly (pair_no (pair_number (plain_rule rule.now) (plain_target target.now))) (tasks self.old) (tasks self.new) };

    /// Which groups take an object over a view, as `group_members` (group_rules) says.
    fn member(
        &mut self,
        alloc: Global,
        view: &WorldView,
        groups: &[&Item],
        member: &Object,
        spare: &mut Locals,
    ) -> Result<GroupAnswer, OutOfMemory>
        requires view { IsLawfulView view.now }
        requires groups { GroupsNamed view.now.store.now groups.now }
        ensures answer { IfOk result (λ a. group_answer a ≡ members_of (view_of view.now) (map plain_group groups.now) (object_view member.now)) }
        ensures task { OnOk result (tasks self.new ≡ tasks self.old ++ member_no member.now.number ∷ []) }
        ensures only { GivesOnly (member_no member.now.number) (tasks self.old) (tasks self.new) };
}

/// The baker that evaluates each task by itself, and keeps the list of them.
#[derive(Drop)]
pub struct PlainBaker {
    tasks: Vec<TaskNo>,
}

impl PlainBaker {
    /// A baker without tasks, which takes no memory.
    pub fn new(alloc: Global) -> PlainBaker
        ensures { result.tasks.items ≡ [] }
    {
        PlainBaker {
            tasks: Vec::new(alloc),
        }
    }

    /// The tasks that it was given, one after another.
    pub fn tasks(&self) -> &[TaskNo]
        ensures { result.now ≡ self.now.tasks.items }
    {
        &self.tasks
    }

    fn add(&mut self, kind: TaskKind, number: ItemNo) -> Result<(), OutOfMemory>
        ensures ok { OnOk result (self.new.tasks.items ≡ self.old.tasks.items ++ (record { kind = kind; number = number }) ∷ []) }
        ensures only { GivesOnly (record { kind = kind; number = number }) self.old.tasks.items self.new.tasks.items }
    {
        self.tasks.push(TaskNo { kind, number })?;
        Ok(())
    }
}

impl Baker for PlainBaker {
    ghost tasks = { λ b. b.tasks.items };

    fn item(
        &mut self,
        alloc: Global,
        view: &WorldView,
        keys: &PresetKeys,
        item: &Pending,
    ) -> Result<ItemAnswer, OutOfMemory> {
        self.add(TaskKind::Item, item.number())?;
        answer_of(alloc, view, keys, item)
    }

    fn rule<'a>(
        &mut self,
        alloc: Global,
        view: &WorldView,
        rule: &'a Rule,
        target: &Target<'a>,
        prepared: &PreparedTarget<'a>,
        spare: &mut Locals,
    ) -> Result<RuleAnswer<'a>, OutOfMemory> {
        self.add(TaskKind::Pair, number_of_pair(rule, target))?;
        instances(alloc, view, rule, prepared, spare)
    }

    fn member(
        &mut self,
        alloc: Global,
        view: &WorldView,
        groups: &[&Item],
        member: &Object,
        spare: &mut Locals,
    ) -> Result<GroupAnswer, OutOfMemory> {
        self.add(TaskKind::Member, member.number)?;
        group_members(alloc, view, groups, member, spare)
    }
}
