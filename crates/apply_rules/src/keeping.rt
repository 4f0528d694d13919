// Which elements of a rule are kept.
ghost use Rattle.std.specs.Prelude.{◌≡◌, ◌++◌, OnOk, IfErr, IfOk, IfSome, map};
ghost use Rattle.eval_work.specs.Kept.{IsFit, PairsNamed};
ghost use Rattle.eval_work.specs.Works.{state_of, view_of, plain_pair, plain_rule, Gives};
ghost use Rattle.commit_meaning.specs.Names.{target_names};
ghost use Rattle.commit_meaning.specs.Rules.{element_run};
ghost use Rattle.eval_work.specs.declared.view.WorldView.{WorldView as WorldData};
ghost use Rattle.item_start.specs.Ready.{IsReady};
ghost use Rattle.rule_expressions.specs.Framed.{in_rule_with};
ghost use Rattle.rule_expressions.specs.Plain.{plain_element};
ghost use Rattle.rule_expressions.specs.Preparations.{IsPrepared};
ghost use Rattle.rule_expressions.specs.Seen.{names_of};
ghost use Rattle.apply_rules.specs.Judging.{judged_element};
ghost use Rattle.apply_rules.specs.Plain.{plain_target, plain_kept};

use crate::instance::{copy_pairs, named_instance};
use crate::{Instance, Target};
use dsl_value::Value;
use eval_work::{Rule, Stop, Work, WorldView};
use item_start::{bind_trees, enter_frame, trees_at};
use rule_expressions::{Element, Prepared, is_kept, judge};
use site_base::{Text, Tree};

/// The instance for an element of a `for`, if it is kept. What the `for` binds goes through its trees before the conditions are
/// evaluated, over new copies of all that is bound. The target's names were prepared behind the cells of the work.
pub(crate) fn element_item<'a>(
    view: &WorldView,
    rule: &'a Rule,
    target: &Target<'a>,
    prepared: &Prepared,
    number: u32,
    element: &Element,
    work: &mut Work,
) -> Result<Option<Instance<'a>>, Stop>
    requires ready { IsReady view.now work.old }
    requires captured { PairsNamed work.old.store rule.now.captured.items }
    requires bound { PairsNamed work.old.store element.now.bound.items }
    requires prepared { IsPrepared work.old.store prepared.now }
    requires subject { names_of prepared.now.subject ≡ target_names (plain_target target.now) }
    ensures gives { Gives plain_kept result (state_of work.new) (element_run (view_of view.now) (plain_rule rule.now) (plain_target target.now) number (plain_element element.now) (state_of work.old)) }
    ensures target { IfOk result (λ o. IfSome o (λ i. i.target ≡ target.now)) }
    ensures ready { OnOk result (IsReady view.now work.new) }
{
    let own = trees_at(work, rule.place, &element.bound)?;
    enter_with(rule, prepared, &own, work)?;
    judged_item(view, rule, target, number, &element.key, own, work)
}

/// Enters the frame of a rule's expressions in a fork of a store in which names were prepared: with these, and then with new copies
/// of what is bound besides.
fn enter_with(
    rule: &Rule,
    prepared: &Prepared,
    own: &[(Text, Tree)],
    work: &mut Work,
) -> Result<(), Stop>
    requires fit { IsFit work.old }
    requires captured { PairsNamed work.old.store rule.now.captured.items }
    requires prepared { IsPrepared work.old.store prepared.now }
    ensures state { OnOk result (state_of work.new ≡ in_rule_with rule.now.captured.items (names_of prepared.now.subject ++ map plain_pair own.now) (state_of work.old)) }
    ensures ready { (v : WorldData) → IsReady v work.old → OnOk result (IsReady v work.new) }
    ensures memory { IfErr result (λ e. e ≡ Stop.Memory) }
{
    let mut store = prepared.store.fork()?;
    let mut bound = copy_pairs(work.alloc, &prepared.bound)?;
    bind_trees(&mut store, &mut bound, own)?;
    work.store = store;
    enter_frame(work, Value::Null, &rule.captured, &bound)
}

/// The instance for an element, if its conditions keep it. The work is in the frame of the rule's expressions.
pub(crate) fn judged_item<'a>(
    view: &WorldView,
    rule: &'a Rule,
    target: &Target<'a>,
    number: u32,
    key: &Text,
    own: Vec<(Text, Tree)>,
    work: &mut Work,
) -> Result<Option<Instance<'a>>, Stop>
    requires { IsReady view.now work.old }
    ensures gives { Gives plain_kept result (state_of work.new) (judged_element (view_of view.now) (plain_rule rule.now) (plain_target target.now) number key.now (target_names (plain_target target.now) ++ map plain_pair own.items) (state_of work.old)) }
    ensures target { IfOk result (λ o. IfSome o (λ i. i.target ≡ target.now)) }
    ensures ready { OnOk result (IsReady view.now work.new) }
{
    let verdict = judge(view, &rule.body, work)?;
    if is_kept(&rule.body, verdict) {
        named_instance(work, rule, target, number, key, own)
    } else {
        Ok(None)
    }
}
