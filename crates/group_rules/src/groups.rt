// The groups that take an object.
ghost use Rattle.std.specs.Prelude.{◌≡◌, [], ◌∷◌, IfOk, map, option_map};
ghost use Rattle.std.specs.Arc.{arc_value};
ghost use Rattle.site_base.specs.View.{view as tree_view};
ghost use Rattle.dsl_value.specs.PlainStores.{plain_store};
ghost use Rattle.eval_meaning.specs.States.{rule as rule_task};
ghost use Rattle.object_types.specs.Names.{type_named};
ghost use Rattle.commit_meaning.specs.Starts.{fresh};
ghost use Rattle.rule_expressions.specs.Seen.{names_of};
ghost use Rattle.site_model.specs.PlainSite.{object_view};
ghost use Rattle.eval_meaning.specs.Views.{View, IsPart};
ghost use Rattle.eval_work.specs.Works.{view_of, Gives};
ghost use Rattle.commit_meaning.specs.Answers.{answered};
ghost use Rattle.commit_meaning.specs.Groups.{group_members as members_of, member_run, groups_by, unless_diags};
ghost use Rattle.commit_meaning.specs.Staying.{Stays};
ghost use Rattle.item_start.specs.Answers.{Answers};
ghost use Rattle.item_start.specs.Ready.{IsLawfulView};
ghost use Rattle.group_rules.specs.Lawful.{GroupsNamed};
ghost use Rattle.group_rules.specs.Plain.{plain_group, plain_taken, group_answer};
ghost use Rattle.group_rules.specs.Taking.{seen_taken};

use crate::GroupAnswer;
use crate::member::seen_of;
use crate::taking::{Taken, none, take};
use eval_meaning::Read;
use eval_work::{Item, Locals, Stop, WorldView};
use rule_expressions::Subject;
use site_base::{Diag, Diags, ItemNo, OutOfMemory, Row};
use site_model::Object;
use std::alloc::Global;

/// Which of these groups take an object by their conditions, over a view: their names in the given order, or what is wrong, or the first
/// read that the view doesn't decide (Icinga 2 documentation, Object Types, HostGroup, ServiceGroup and UserGroup).
///
/// A group takes an object where some `assign` is true and no `ignore` is. A service whose host isn't there is taken by none. Each fault is told
/// under the object's number. An answer that isn't blocked stays the same over every view that shows more, as over the whole world. The
/// groups are the items of the groups of the object's type. The locals of frames take the memory of the spare ones.
#[tactic(auto, unfolding(commit_meaning::specs::Groups::group_members))]
pub fn group_members(
    alloc: Global,
    view: &WorldView,
    groups: &[&Item],
    member: &Object,
    spare: &mut Locals,
) -> Result<GroupAnswer, OutOfMemory>
    requires view { IsLawfulView view.now }
    requires groups { GroupsNamed view.now.store.now groups.now }
    ensures answer { IfOk result (λ a. group_answer a ≡ members_of (view_of view.now) (map plain_group groups.now) (object_view member.now)) }
    ensures stays { (world : View) → IsPart (view_of view.now) world → IfOk result (λ a. Stays (group_answer a) (members_of world (map plain_group groups.now) (object_view member.now))) }
{
    match run_groups(alloc, view, groups, member, spare) {
        Ok(taken) => Ok(answer_of(taken)),
        Err(Stop::Fault { place, kind, text }) => {
            let number = member.number;
            let fault = Diag {
                number,
                place,
                kind,
                text,
            };
            Ok(GroupAnswer::Diags(only(alloc, fault)?))
        }
        Err(Stop::Blocked(read)) => Ok(GroupAnswer::Blocked(read)),
        Err(Stop::Memory) => Err(OutOfMemory),
    }
}

/// What groups have come to for an object.
fn run_groups(
    alloc: Global,
    view: &WorldView,
    groups: &[&Item],
    member: &Object,
    spare: &mut Locals,
) -> Result<Taken, Stop>
    requires view { IsLawfulView view.now }
    requires groups { GroupsNamed view.now.store.now groups.now }
    ensures { Answers plain_taken member.now.number result (answered member.now.number (member_run (view_of view.now) (map plain_group groups.now) (object_view member.now))) }
{
    let mut reads = Vec::new(alloc);
    take_seen(alloc, view, groups, member, &mut reads, spare)
}

/// Takes what groups see of an object, and then each group in turn.
fn take_seen(
    alloc: Global,
    view: &WorldView,
    groups: &[&Item],
    member: &Object,
    reads: &mut Vec<Read>,
    spare: &mut Locals,
) -> Result<Taken, Stop>
    requires view { IsLawfulView view.now }
    requires groups { GroupsNamed view.now.store.now groups.now }
    ensures { Gives plain_taken result (fresh (plain_store view.now.store.now) rule_task reads.new.items) (seen_taken (view_of view.now) member.now.number (type_named member.now.kind) (tree_view (arc_value member.now.tree)) (map plain_group groups.now) (fresh (plain_store view.now.store.now) rule_task reads.old.items)) }
{
    let seen = seen_of(alloc, view, member, reads)?;
    take_by(alloc, view, member.number, seen, groups, reads, spare)
}

fn take_by(
    alloc: Global,
    view: &WorldView,
    number: ItemNo,
    seen: Option<Subject>,
    groups: &[&Item],
    reads: &mut Vec<Read>,
    spare: &mut Locals,
) -> Result<Taken, Stop>
    requires view { IsLawfulView view.now }
    requires groups { GroupsNamed view.now.store.now groups.now }
    ensures { Gives plain_taken result (fresh (plain_store view.now.store.now) rule_task reads.new.items) (groups_by (view_of view.now) number (map plain_group groups.now) (option_map names_of seen.entry) (fresh (plain_store view.now.store.now) rule_task reads.old.items)) }
{
    match seen {
        Some(seen) => take(alloc, view, number, seen, groups, reads, spare),
        None => Ok(none(alloc)),
    }
}

/// The names, unless anything is wrong.
fn answer_of(taken: Taken) -> GroupAnswer
    ensures { group_answer result ≡ unless_diags (plain_taken taken) (plain_taken taken).diags }
{
    if taken.diags.is_empty() {
        GroupAnswer::Names(taken.names)
    } else {
        GroupAnswer::Diags(taken.diags)
    }
}

/// A list of one diagnostic.
fn only(alloc: Global, fault: Diag) -> Result<Diags, OutOfMemory>
    ensures { IfOk result (λ ds. ds ≡ fault ∷ []) }
{
    let mut faults = Row::new(alloc);
    faults.push(fault)?;
    Ok(faults)
}
