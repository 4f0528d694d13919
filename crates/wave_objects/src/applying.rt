// What the rules of a wave make of all their targets.
ghost use Rattle.std.specs.Prelude.{◌≡◌, ◌++◌, length, IfOk, OnOk, map};
ghost use Rattle.std.specs.List.{filter};
ghost use Rattle.site_model.specs.PlainSite.{object_view};
ghost use Rattle.dsl_value.specs.Contents.{Contents};
ghost use Rattle.eval_work.specs.Works.{view_of, plain_rule};
ghost use Rattle.item_start.specs.Ready.{IsLawfulView};
ghost use Rattle.apply_rules.specs.Plain.{plain_instance, rule_answer};
ghost use Rattle.apply_rules.specs.Sharing.{AreSharedIn, IsAnswerShared};
ghost use Rattle.commit_meaning.specs.Answers.{all_made, diags_in};
ghost use Rattle.commit_meaning.specs.Waves.{is_in_wave as in_wave};
ghost use Rattle.wave_objects.specs.Applying.{AppliedNamed, AppliedShared, AreApplied, AreNew, AreWithin, HaveTaken, rules_of};
ghost use Rattle.wave_objects.specs.AtTargets.{AreAnswersShared, plain_placed};

use crate::at_targets::{PlacedAnswer, answers_at_object};
use crate::by_type::rules_by_type;
use apply_rules::{Instance, RuleAnswer};
use eval_work::{Committed, Locals, Rule, WorldView};
use site_base::{Diags, OutOfMemory, Row};
use std::alloc::Global;
use wave_order::is_in_wave;

/// A rule of a wave, with the instances that it has made so far, and its faults.
#[derive(Drop)]
pub struct Applied<'a> {
    pub rule: &'a Rule,
    pub made: Vec<Instance<'a>>,
    pub faults: Diags,
}

/// The rules of a wave, of which none has made anything yet.
///
/// # Errors
///
/// `OutOfMemory` if there is too little memory for the list of them.
pub fn unapplied<'a>(
    alloc: Global,
    rules: &'a [Rule],
    wave: u8,
) -> Result<Vec<Applied<'a>>, OutOfMemory>
    ensures rules { IfOk result (λ rs. rules_of rs.items ≡ filter (λ r. in_wave wave r.kind) (map plain_rule rules.now)) }
    ensures new { IfOk result (λ rs. AreNew rs.items) }
{
    let mut of_wave = Vec::new(alloc);
    for rule in rules {
        if is_in_wave(wave, rule.kind.as_str()) {
            of_wave.push(Applied {
                rule,
                made: Vec::new(alloc),
                faults: Row::new(alloc),
            })?;
        }
    }
    Ok(of_wave)
}

/// Applies rules to all objects that are their targets. Each object is prepared once, for all rules that go to its type, so that only one
/// has its values at a time.
pub(crate) fn apply_to_all<'a>(
    alloc: Global,
    view: &WorldView,
    objects: &'a Committed,
    rules: &mut Vec<Applied<'a>>,
) -> Result<(), OutOfMemory>
    requires lawful { IsLawfulView view.now }
    requires named { AppliedNamed view.now.store.now rules.old.items }
    requires new { AreNew rules.old.items }
    ensures rules { OnOk result (rules_of rules.new.items ≡ rules_of rules.old.items) }
    ensures applied { OnOk result (AreApplied (view_of view.now) (map object_view objects.now) rules.new.items) }
    ensures shared { OnOk result (AppliedShared view.now.store.now rules.new.items) }
{
    let types = rules_by_type(alloc, rules)?;
    let mut spare = Locals::new(alloc);
    for object in objects.as_slice() {
        let answers = answers_at_object(alloc, view, objects, object, &types, &mut spare)?;
        take_answers(answers, rules)?;
    }
    Ok(())
}

/// Has the rules at these places take answers, one after another.
///
/// # Errors
///
/// `OutOfMemory` if there is too little memory for what is taken.
pub fn take_answers<'a>(
    answers: Vec<PlacedAnswer<'a>>,
    rules: &mut Vec<Applied<'a>>,
) -> Result<(), OutOfMemory>
    requires { AreWithin (length rules.old.items) (map plain_placed answers.items) }
    ensures taken { OnOk result (HaveTaken 0 (map plain_placed answers.entry.items) rules.old.items rules.new.items) }
    ensures shared { (s : Contents) → AppliedShared s rules.old.items → AreAnswersShared s answers.entry.items → OnOk result (AppliedShared s rules.new.items) }
{
    for placed in answers {
        let PlacedAnswer { place, answer } = placed;
        rules[place].take(answer)?;
    }
    Ok(())
}

impl<'a> Applied<'a> {
    /// Adds an answer. Nothing is added for one that is blocked.
    fn take(&mut self, answer: RuleAnswer<'a>) -> Result<(), OutOfMemory>
        ensures rule { OnOk result (self.new.rule ≡ self.old.rule) }
        ensures made { OnOk result (map plain_instance self.new.made.items ≡ map plain_instance self.old.made.items ++ all_made (rule_answer answer.entry)) }
        ensures faults { OnOk result (self.new.faults ≡ self.old.faults ++ diags_in (rule_answer answer.entry)) }
        ensures shared { (s : Contents) → AreSharedIn s self.old.made.items → IsAnswerShared s answer.entry → OnOk result (AreSharedIn s self.new.made.items) }
    {
        match answer {
            RuleAnswer::Instances(more) => {
                let mut more = more;
                self.made.append(&mut more)?;
                Ok(())
            }
            RuleAnswer::Diag(diag) => self.faults.push(diag),
            RuleAnswer::Blocked(_) => Ok(()),
        }
    }
}
