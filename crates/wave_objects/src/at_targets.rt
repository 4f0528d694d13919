// What the rules of a wave come to at one object.
ghost use Rattle.std.specs.Prelude.{◌≡◌, ℕ, List, IfOk, map};
ghost use Rattle.site_model.specs.PlainSite.{object_view};
ghost use Rattle.eval_work.specs.Works.{view_of};
ghost use Rattle.item_start.specs.Ready.{IsLawfulView};
ghost use Rattle.apply_rules.specs.Plain.{plain_target};
ghost use Rattle.wave_objects.specs.AtTargets.{AreAnswersShared, PlacedNamed, answers_of_one, placed_answers, plain_placed};
ghost use Rattle.wave_objects.specs.ByType.{type_rules};

use crate::by_type::{PlacedRule, RulesOfType, rules_to};
use crate::targets::target_of;
use apply_rules::{PreparedTarget, RuleAnswer, Target, instances};
use eval_work::{Committed, Locals, WorldView};
use site_base::OutOfMemory;
use site_model::Object;
use std::alloc::Global;

/// What a rule comes to at a target, with the rule's place among those of the wave.
#[derive(Drop)]
pub struct PlacedAnswer<'a> {
    pub place: usize,
    pub answer: RuleAnswer<'a>,
}

/// What the rules that go to an object's type come to at it, one rule after another, if it is a target. The object is prepared
/// once, for all of them.
pub(crate) fn answers_at_object<'a>(
    alloc: Global,
    view: &WorldView,
    objects: &'a Committed,
    object: &'a Object,
    types: &[RulesOfType<'a>],
    spare: &mut Locals,
) -> Result<Vec<PlacedAnswer<'a>>, OutOfMemory>
    requires lawful { IsLawfulView view.now }
    requires named { (kind : List ℕ) → PlacedNamed view.now.store.now (type_rules kind types.now) }
    ensures answers { IfOk result (λ answers. map plain_placed answers.items ≡ answers_of_one (view_of view.now) (map object_view objects.now) types.now (object_view object.now)) }
    ensures shared { IfOk result (λ answers. AreAnswersShared view.now.store.now answers.items) }
{
    let rules = rules_to(types, object.kind.as_str());
    if rules.is_empty() {
        return Ok(Vec::new(alloc));
    }
    match target_of(objects, object) {
        Some(target) => answers_at_target(alloc, view, target, rules, spare),
        None => Ok(Vec::new(alloc)),
    }
}

/// What these rules come to at a target, one after another.
fn answers_at_target<'a>(
    alloc: Global,
    view: &WorldView,
    target: Target<'a>,
    rules: &[PlacedRule<'a>],
    spare: &mut Locals,
) -> Result<Vec<PlacedAnswer<'a>>, OutOfMemory>
    requires lawful { IsLawfulView view.now }
    requires named { PlacedNamed view.now.store.now rules.now }
    ensures answers { IfOk result (λ answers. map plain_placed answers.items ≡ placed_answers (view_of view.now) rules.now (plain_target target.entry)) }
    ensures shared { IfOk result (λ answers. AreAnswersShared view.now.store.now answers.items) }
{
    let prepared = PreparedTarget::new(alloc, view.store, target)?;
    let mut answers = Vec::with_capacity(alloc, rules.len())?;
    for placed in rules {
        let place = placed.place;
        let answer = instances(alloc, view, placed.rule, &prepared, spare)?;
        answers.push(PlacedAnswer { place, answer })?;
    }
    Ok(answers)
}
