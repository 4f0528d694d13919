// Which groups take an object.
ghost use Rattle.std.specs.Prelude.{◌≡◌, OnOk, map};
ghost use Rattle.dsl_value.specs.PlainStores.{plain_store};
ghost use Rattle.eval_meaning.specs.States.{rule as rule_task};
ghost use Rattle.eval_work.specs.Kept.{PairsNamed};
ghost use Rattle.eval_work.specs.Works.{view_of, plain_item, Gives};
ghost use Rattle.commit_meaning.specs.Conditions.{is_taken as taken_of};
ghost use Rattle.commit_meaning.specs.Groups.{caught, group_run, groups_run, none_taken, taken_by};
ghost use Rattle.commit_meaning.specs.Starts.{fresh};
ghost use Rattle.item_start.specs.Ready.{IsLawfulView};
ghost use Rattle.rule_expressions.specs.Plain.{plain_verdict};
ghost use Rattle.rule_expressions.specs.Preparations.{IsPrepared};
ghost use Rattle.rule_expressions.specs.Seen.{names_of};
ghost use Rattle.group_rules.specs.Lawful.{GroupsNamed};
ghost use Rattle.group_rules.specs.Plain.{plain_group, plain_taken};
ghost use Rattle.group_rules.specs.ReadsLeft.{GivesReads};

use eval_meaning::Read;
use eval_work::{Item, Locals, Stop, WorldView};
use rule_expressions::{
    Prepared, Subject, Verdict, begin_expressions, has_conditions, judge, prepare,
};
use site_base::{Diag, Diags, ItemNo, OutOfMemory, Row, Texts};
use std::alloc::Global;
use std::mem;

/// What groups have come to: the names of those that take the object, and what is wrong with the others.
#[derive(Drop)]
pub(crate) struct Taken {
    pub(crate) names: Texts,
    pub(crate) diags: Diags,
}

/// Nothing yet.
pub(crate) fn none(alloc: Global) -> Taken
    ensures { plain_taken result ≡ none_taken }
{
    Taken {
        names: Row::new(alloc),
        diags: Row::new(alloc),
    }
}

/// Which of these groups take what is seen of an object of this number. What is wrong with one group is told, and the next is evaluated all the
/// same.
pub(crate) fn take(
    alloc: Global,
    view: &WorldView,
    number: ItemNo,
    seen: Subject,
    groups: &[&Item],
    reads: &mut Vec<Read>,
    spare: &mut Locals,
) -> Result<Taken, Stop>
    requires view { IsLawfulView view.now }
    requires groups { GroupsNamed view.now.store.now groups.now }
    ensures { Gives plain_taken result (fresh (plain_store view.now.store.now) rule_task reads.new.items) (groups_run (view_of view.now) number (names_of seen.entry) (map plain_group groups.now) none_taken (fresh (plain_store view.now.store.now) rule_task reads.old.items)) }
{
    let prepared = prepare(alloc, view.store, seen)?;
    let mut taken = none(alloc);
    for group in groups {
        take_one(
            alloc, view, number, &prepared, group, &mut taken, reads, spare,
        )?;
    }
    Ok(taken)
}

/// Notes what a group comes to. One without conditions takes nothing. A fault is told under the object's number; a read that isn't decided
/// ends all.
fn take_one(
    alloc: Global,
    view: &WorldView,
    number: ItemNo,
    prepared: &Prepared,
    group: &Item,
    taken: &mut Taken,
    reads: &mut Vec<Read>,
    spare: &mut Locals,
) -> Result<(), Stop>
    requires view { IsLawfulView view.now }
    requires captured { PairsNamed view.now.store.now group.now.captured.items }
    requires prepared { IsPrepared view.now.store.now prepared.now }
    ensures { Gives (λ _. plain_taken taken.new) result (fresh (plain_store view.now.store.now) rule_task reads.new.items) (caught (view_of view.now) number (plain_item group.now) (plain_taken taken.old) (group_run (view_of view.now) (names_of prepared.now.subject) (plain_item group.now) (fresh (plain_store view.now.store.now) rule_task reads.old.items))) }
{
    if !has_conditions(&group.body) {
        return Ok(());
    }
    match judge_group(alloc, view, prepared, group, reads, spare) {
        Ok(verdict) => Ok(add_name(group, verdict, taken)?),
        Err(Stop::Fault { place, kind, text }) => {
            let fault = Diag {
                number,
                place,
                kind,
                text,
            };
            Ok(taken.diags.push(fault)?)
        }
        Err(Stop::Blocked(read)) => Err(Stop::Blocked(read)),
        Err(Stop::Memory) => Err(Stop::Memory),
    }
}

/// Evaluates the conditions of a group, in a store and with a budget of its own.
fn judge_group(
    alloc: Global,
    view: &WorldView,
    prepared: &Prepared,
    group: &Item,
    reads: &mut Vec<Read>,
    spare: &mut Locals,
) -> Result<Verdict, Stop>
    requires view { IsLawfulView view.now }
    requires captured { PairsNamed view.now.store.now group.now.captured.items }
    requires prepared { IsPrepared view.now.store.now prepared.now }
    ensures { GivesReads plain_verdict result reads.new.items (group_run (view_of view.now) (names_of prepared.now.subject) (plain_item group.now) (fresh (plain_store view.now.store.now) rule_task reads.old.items)) }
{
    let before = mem::replace(reads, Vec::new(alloc));
    let mut work = begin_expressions(alloc, view, prepared, &group.captured, before, spare)?;
    let verdict = judge(view, &group.body, &mut work);
    *reads = work.reads;
    *spare = work.locals;
    verdict
}

/// Notes that a group takes the object, if it does.
fn add_name(group: &Item, verdict: Verdict, taken: &mut Taken) -> Result<(), OutOfMemory>
    ensures { OnOk result (plain_taken taken.new ≡ taken_by group.now.name (plain_verdict verdict) (plain_taken taken.old)) }
{
    if is_taken(verdict) {
        taken.names.push(group.name.clone()?)
    } else {
        Ok(())
    }
}

/// Whether a group with these conditions takes an object.
fn is_taken(verdict: Verdict) -> bool
    ensures { result ≡ taken_of (plain_verdict verdict) }
{
    verdict.assigned && !verdict.ignored
}
