// The evaluation of a rule at a target.
ghost use Rattle.std.specs.Prelude.{◌≡◌, ◌+◌, ◌++◌, [], false, OnOk, IfOk, IfErr, IfSome, None, Some, map};
ghost use Rattle.dsl_syntax.specs.SyntaxView.{each_view};
ghost use Rattle.dsl_value.specs.Contents.{Contents};
ghost use Rattle.dsl_value.specs.PlainStores.{plain_store};
ghost use Rattle.eval_meaning.specs.States.{rule as rule_task};
ghost use Rattle.eval_work.specs.Works.{state_of, view_of, plain_rule, Gives};
ghost use Rattle.commit_meaning.specs.Answers.{answered};
ghost use Rattle.commit_meaning.specs.Names.{target_names};
ghost use Rattle.commit_meaning.specs.Starts.{fresh};
ghost use Rattle.commit_meaning.specs.Rules.{rule_run, pair_number, elements_run};
ghost use Rattle.eval_work.specs.Kept.{HasGlobals, IsFit, PairsNamed};
ghost use Rattle.item_start.specs.Answers.{Answers};
ghost use Rattle.item_start.specs.Ready.{IsReady};
ghost use Rattle.rule_expressions.specs.Framed.{in_rule_with};
ghost use Rattle.rule_expressions.specs.Named.{ElementsNamed};
ghost use Rattle.rule_expressions.specs.Plain.{plain_element};
ghost use Rattle.apply_rules.specs.Judging.{judged_element, looped_items, unframed};
ghost use Rattle.apply_rules.specs.Lawful.{IsApplicable};
ghost use Rattle.apply_rules.specs.Plain.{plain_target, plain_instance, plain_items, plain_kept};
ghost use Rattle.apply_rules.specs.Preparations.{IsPreparedTarget};
ghost use Rattle.apply_rules.specs.Sharing.{AreLike, AreSharedIn};

use crate::keeping::{element_item, judged_item};
use crate::sharing::Share;
use crate::target::subject_of;
use crate::{Instance, PreparedTarget, Target};
use dsl_syntax::Each;
use dsl_value::{Store, Value};
use eval_work::{Locals, Rule, Stop, Task, Work, WorldView};
use rule_expressions::{Element, begin_expressions, elements, prepare_for_many};
use site_base::{OutOfMemory, Text};
use std::alloc::Global;
use std::mem;

/// The instances of a rule at a target. It ends early by the first fault, or by the first read that isn't decided.
pub(crate) fn run_rule<'a>(
    alloc: Global,
    view: &WorldView,
    rule: &'a Rule,
    target: &PreparedTarget<'a>,
    spare: &mut Locals,
) -> Result<Vec<Instance<'a>>, Stop>
    requires { IsApplicable view.now rule.now target.now }
    ensures answer { Answers plain_items (pair_number (plain_rule rule.now) (plain_target target.now.target)) result (answered (pair_number (plain_rule rule.now) (plain_target target.now.target)) (rule_run (view_of view.now) (plain_rule rule.now) (plain_target target.now.target))) }
    ensures shared { IfOk result (λ is. AreSharedIn view.now.store.now is.items) }
{
    match &rule.each {
        Some(each) => run_loop(alloc, view, rule, each, target, spare),
        None => run_once(alloc, view, rule, target, spare),
    }
}

/// The instance of a rule without a `for`, if it is kept.
fn run_once<'a>(
    alloc: Global,
    view: &WorldView,
    rule: &'a Rule,
    target: &PreparedTarget<'a>,
    spare: &mut Locals,
) -> Result<Vec<Instance<'a>>, Stop>
    requires applicable { IsApplicable view.now rule.now target.now }
    requires once { (plain_rule rule.now).loop ≡ None }
    ensures answer { Answers plain_items (pair_number (plain_rule rule.now) (plain_target target.now.target)) result (answered (pair_number (plain_rule rule.now) (plain_target target.now.target)) (rule_run (view_of view.now) (plain_rule rule.now) (plain_target target.now.target))) }
    ensures shared { IfOk result (λ is. AreSharedIn view.now.store.now is.items) }
{
    let mut work = begin_rule(alloc, view, rule, target, spare)?;
    let items = one_item(view, rule, &target.target, &mut work);
    *spare = work.locals;
    items
}

fn one_item<'a>(
    view: &WorldView,
    rule: &'a Rule,
    target: &Target<'a>,
    work: &mut Work,
) -> Result<Vec<Instance<'a>>, Stop>
    requires { IsReady view.now work.old }
    ensures gives { Gives plain_items result (state_of work.new) (judged_element (view_of view.now) (plain_rule rule.now) (plain_target target.now) 0 [] (target_names (plain_target target.now) ++ []) (state_of work.old)) }
    ensures shared { (s : Contents) → IfOk result (λ is. AreSharedIn s is.items) }
{
    let key = Text::new(work.alloc);
    let own = Vec::new(work.alloc);
    let mut items = Vec::new(work.alloc);
    let share = Share {
        target: *target,
        values: None,
    };
    let kept = judged_item(view, rule, target, 0, &key, own, work)?;
    keep(&mut items, kept, &share)?;
    Ok(items)
}

/// The instances of a rule with a `for`.
fn run_loop<'a>(
    alloc: Global,
    view: &WorldView,
    rule: &'a Rule,
    each: &Each,
    target: &PreparedTarget<'a>,
    spare: &mut Locals,
) -> Result<Vec<Instance<'a>>, Stop>
    requires applicable { IsApplicable view.now rule.now target.now }
    requires each { (plain_rule rule.now).loop ≡ Some (each_view each.now) }
    ensures answer { Answers plain_items (pair_number (plain_rule rule.now) (plain_target target.now.target)) result (answered (pair_number (plain_rule rule.now) (plain_target target.now.target)) (rule_run (view_of view.now) (plain_rule rule.now) (plain_target target.now.target))) }
    ensures shared { IfOk result (λ is. AreSharedIn view.now.store.now is.items) }
{
    let mut work = begin_rule(alloc, view, rule, target, spare)?;
    let items = loop_items(view, rule, each, target, &mut work);
    *spare = work.locals;
    items
}

fn loop_items<'a>(
    view: &WorldView,
    rule: &'a Rule,
    each: &Each,
    target: &PreparedTarget<'a>,
    work: &mut Work,
) -> Result<Vec<Instance<'a>>, Stop>
    requires ready { IsReady view.now work.old }
    requires captured { PairsNamed work.old.store rule.now.captured.items }
    requires task { work.old.task ≡ Task.Rule }
    ensures gives { Gives plain_items result (state_of work.new) (looped_items (view_of view.now) (plain_rule rule.now) (each_view each.now) (plain_target target.now.target) (state_of work.old)) }
    ensures shared { (s : Contents) → IsPreparedTarget s target.now → IfOk result (λ is. AreSharedIn s is.items) }
{
    let elements = elements(view, each, work)?;
    let share = target.share(work.alloc, elements.len())?;
    run_elements(view, rule, &share, &elements, work)
}

/// The work on which the expressions of a rule are evaluated.
fn begin_rule(
    alloc: Global,
    view: &WorldView,
    rule: &Rule,
    target: &PreparedTarget,
    spare: &mut Locals,
) -> Result<Work, Stop>
    requires { IsApplicable view.now rule.now target.now }
    ensures state { IfOk result (λ w. state_of w ≡ in_rule_with rule.now.captured.items (target_names (plain_target target.now.target)) (fresh (plain_store view.now.store.now) rule_task [])) }
    ensures ready { IfOk result (IsReady view.now) }
    ensures captured { IfOk result (λ w. PairsNamed w.store rule.now.captured.items) }
    ensures task { IfOk result (λ w. w.task ≡ Task.Rule) }
    ensures memory { IfErr result (λ e. e ≡ Stop.Memory) }
{
    begin_expressions(
        alloc,
        view,
        &target.prepared,
        &rule.captured,
        Vec::new(alloc),
        spare,
    )
}

/// The instances for elements that are kept, which are numbered from 1. Each begins with the cells and functions as they are before the
/// first. The values of the target's names are made once behind these, and each element forks them.
fn run_elements<'a>(
    view: &WorldView,
    rule: &'a Rule,
    share: &Share<'a>,
    elements: &[Element],
    work: &mut Work,
) -> Result<Vec<Instance<'a>>, Stop>
    requires ready { IsReady view.now work.old }
    requires captured { PairsNamed work.old.store rule.now.captured.items }
    requires elements { ElementsNamed work.old.store (map plain_element elements.now) }
    requires task { work.old.task ≡ Task.Rule }
    ensures gives { Gives plain_items result (state_of work.new) (elements_run (view_of view.now) (plain_rule rule.now) (plain_target share.now.target) (unframed (state_of work.old)) 1 (map plain_element elements.now) [] (state_of work.old)) }
    ensures like { IfOk result (λ is. AreLike share.now is.items) }
{
    let mut items = Vec::new(work.alloc);
    if elements.is_empty() {
        return Ok(items);
    }
    let before = work.store.fork()?;
    let prepared = prepare_for_many(work.alloc, &before, subject_of(&share.target))?;
    let mut number = 0;
    for element in elements {
        number = next_number(number)?;
        begin_again(&before, work)?;
        let kept = element_item(view, rule, &share.target, &prepared, number, element, work)?;
        keep(&mut items, kept, share)?;
    }
    Ok(items)
}

/// More than 4,294,967,295 elements are want of memory.
fn next_number(number: u32) -> Result<u32, OutOfMemory>
    ensures { IfOk result (λ n. n ≡ number + 1) }
{
    number.checked_add(1).ok_or(OutOfMemory)
}

/// Goes back to these cells and functions, with what is left of the budget.
fn begin_again(before: &Store, work: &mut Work) -> Result<(), OutOfMemory>
    requires { HasGlobals before.now }
    ensures state { OnOk result (work.new ≡ record work.old { store = before.now; this = Value.Null; locals = []; in_file = false; task = Task.Rule }) }
    ensures fit { OnOk result (IsFit work.new) }
{
    work.store = before.fork()?;
    work.this = Value::Null;
    work.locals = mem::replace(&mut work.locals, Locals::new(work.alloc)).cleared();
    work.in_file = false;
    work.task = Task::Rule;
    Ok(())
}

/// Adds an instance that is kept, which shares what others at its target do.
fn keep<'a>(
    made: &mut Vec<Instance<'a>>,
    kept: Option<Instance<'a>>,
    share: &Share<'a>,
) -> Result<(), OutOfMemory>
    requires target { IfSome kept (λ i. i.target ≡ share.now.target) }
    requires like { AreLike share.now made.old.items }
    ensures items { OnOk result (map plain_instance made.new.items ≡ map plain_instance made.old.items ++ plain_kept kept.entry) }
    ensures like { OnOk result (AreLike share.now made.new.items) }
{
    match kept {
        Some(instance) => {
            let instance = instance.sharing(&share.values)?;
            made.push(instance)?;
            Ok(())
        }
        None => Ok(()),
    }
}
