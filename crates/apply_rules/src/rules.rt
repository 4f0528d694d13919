// Rules at their targets.
ghost use Rattle.std.specs.Prelude.{◌≡◌, IfOk};
ghost use Rattle.eval_meaning.specs.Views.{View, IsPart};
ghost use Rattle.eval_work.specs.Works.{view_of, plain_rule};
ghost use Rattle.commit_meaning.specs.Rules.{instances as instances_of, pair_number as number_of_pair};
ghost use Rattle.commit_meaning.specs.Staying.{Stays};
ghost use Rattle.apply_rules.specs.Lawful.{IsApplicable};
ghost use Rattle.apply_rules.specs.Plain.{plain_target, rule_answer};
ghost use Rattle.apply_rules.specs.Sharing.{IsAnswerShared};

use crate::evaluation::run_rule;
use crate::target::target_no;
use crate::{PreparedTarget, RuleAnswer, Target};
use eval_work::{Locals, Rule, Stop, WorldView};
use site_base::{Diag, ItemNo, OutOfMemory};
use std::alloc::Global;

/// What a rule comes to at a target over a view: an instance for each element that it keeps, or its first fault, or the first read that the
/// view doesn't decide (Icinga 2 documentation, Language Reference, Apply and Apply For).
///
/// Without a `for` there is one element, of number 0; the elements of a `for` are numbered from 1, those that aren't kept too. An element is kept
/// where some `assign` is true, or there is none, and no `ignore` is. A fault has the number of the rule and the target. An answer that isn't
/// blocked stays the same over every view that shows more, as over the whole world. The store of the view is the one for which the target was
/// prepared. The locals of its frame take the memory of the spare ones, so that one pair after another takes no new memory where
/// nothing is kept.
#[tactic(auto, unfolding(commit_meaning::specs::Rules::instances))]
pub fn instances<'a>(
    alloc: Global,
    view: &WorldView,
    rule: &'a Rule,
    target: &PreparedTarget<'a>,
    spare: &mut Locals,
) -> Result<RuleAnswer<'a>, OutOfMemory>
    requires { IsApplicable view.now rule.now target.now }
    ensures answer { IfOk result (λ a. rule_answer a ≡ instances_of (view_of view.now) (plain_rule rule.now) (plain_target target.now.target)) }
    ensures stays { (world : View) → IsPart (view_of view.now) world → IfOk result (λ a. Stays (rule_answer a) (instances_of world (plain_rule rule.now) (plain_target target.now.target))) }
    // The values that the instances share are those of the view's store.
    ensures shared { IfOk result (IsAnswerShared view.now.store.now) }
{
    match run_rule(alloc, view, rule, target, spare) {
        Ok(made) => Ok(RuleAnswer::Instances(made)),
        Err(Stop::Fault { place, kind, text }) => {
            let number = pair_number(rule, &target.target);
            Ok(RuleAnswer::Diag(Diag {
                number,
                place,
                kind,
                text,
            }))
        }
        Err(Stop::Blocked(read)) => Ok(RuleAnswer::Blocked(read)),
        Err(Stop::Memory) => Err(OutOfMemory),
    }
}

/// The number of a rule at a target.
fn pair_number(rule: &Rule, target: &Target) -> ItemNo
    ensures { result ≡ number_of_pair (plain_rule rule.now) (plain_target target.now) }
{
    ItemNo {
        item: rule.number.item,
        target: target_no(target),
        key: 0,
    }
}
