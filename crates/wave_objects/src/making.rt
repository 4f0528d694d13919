// The objects of a wave's items.
ghost use Rattle.std.specs.Prelude.{◌≡◌, ◌++◌, [], IfOk, OnOk, map};
ghost use Rattle.std.specs.List.{filter, flat_map};
ghost use Rattle.site_model.specs.PlainSite.{object_view};
ghost use Rattle.eval_work.specs.Kept.{PairsNamed};
ghost use Rattle.eval_work.specs.Works.{view_of, plain_item};
ghost use Rattle.item_start.specs.Ready.{IsLawfulView};
ghost use Rattle.apply_rules.specs.Keys.{AreKeys};
ghost use Rattle.commit_meaning.specs.Answers.{made_in, diags_in};
ghost use Rattle.commit_meaning.specs.Items.{item_answer};
ghost use Rattle.commit_meaning.specs.Waves.{group_made, is_group as group_type};
ghost use Rattle.object_types.specs.Names.{type_named};
ghost use Rattle.wave_order.specs.WaveItems.{AreWaitingIn, IsWaitingIn, plain_pending};
ghost use Rattle.item_body.specs.Plain.{plain_answer};
ghost use Rattle.wave_objects.specs.Captured.{AreNamed};
ghost use Rattle.wave_objects.specs.Steps.{groups_by};

use crate::answering::answer_of;
use apply_rules::PresetKeys;
use eval_work::{Item, WorldView};
use item_body::ItemAnswer;
use object_types::ObjectType;
use site_base::{Diags, OutOfMemory, Row};
use site_model::Object;
use std::alloc::Global;
use wave_order::Pending;

/// What items have come to: their objects, the items of which groups were made, and what is wrong.
#[derive(Drop)]
pub struct Objects {
    pub objects: Vec<Object>,
    pub groups: Vec<Item>,
    pub faults: Diags,
}

/// Makes the objects of items, one after another. What a rule makes becomes an item when its turn comes.
pub fn make_objects(
    alloc: Global,
    view: &WorldView,
    items: Vec<Pending>,
) -> Result<Objects, OutOfMemory>
    requires lawful { IsLawfulView view.now }
    requires named { AreNamed view.now.store.now (map plain_pending items.items) }
    requires shared { AreWaitingIn view.now.store.now items.items }
    ensures objects { IfOk result (λ o. map object_view o.objects.items ≡ flat_map (λ i. made_in (item_answer (view_of view.now) i)) (map plain_pending items.entry.items)) }
    ensures groups { IfOk result (λ o. map plain_item o.groups.items ≡ filter (group_made (view_of view.now)) (map plain_pending items.entry.items)) }
    ensures faults { IfOk result (λ o. o.faults ≡ flat_map (λ i. diags_in (item_answer (view_of view.now) i)) (map plain_pending items.entry.items)) }
{
    let mut made = Objects {
        objects: Vec::new(alloc),
        groups: Vec::new(alloc),
        faults: Row::new(alloc),
    };
    let keys = PresetKeys::new(alloc)?;
    for pending in items {
        make(alloc, view, &keys, pending, &mut made)?;
    }
    Ok(made)
}

/// Adds what an item comes to, which goes then unless it is a group's.
fn make(
    alloc: Global,
    view: &WorldView,
    keys: &PresetKeys,
    pending: Pending,
    out: &mut Objects,
) -> Result<(), OutOfMemory>
    requires lawful { IsLawfulView view.now }
    requires keys { AreKeys keys.now }
    requires named { PairsNamed view.now.store.now (plain_pending pending).captured }
    requires shared { IsWaitingIn view.now.store.now pending }
    ensures objects { OnOk result (map object_view out.new.objects.items ≡ map object_view out.old.objects.items ++ made_in (item_answer (view_of view.now) (plain_pending pending.entry))) }
    ensures groups { OnOk result (map plain_item out.new.groups.items ≡ map plain_item out.old.groups.items ++ groups_by (plain_pending pending.entry) (item_answer (view_of view.now) (plain_pending pending.entry))) }
    ensures faults { OnOk result (out.new.faults ≡ out.old.faults ++ diags_in (item_answer (view_of view.now) (plain_pending pending.entry))) }
{
    let answer = answer_of(alloc, view, keys, &pending)?;
    add_answer(alloc, keys, pending, answer, out)
}

/// Adds what an item came to. Nothing is added for an item that is blocked.
///
/// # Errors
///
/// `OutOfMemory` if there is too little memory for what is added.
pub fn add_answer(
    alloc: Global,
    keys: &PresetKeys,
    pending: Pending,
    answer: ItemAnswer,
    out: &mut Objects,
) -> Result<(), OutOfMemory>
    requires { AreKeys keys.now }
    ensures objects { OnOk result (map object_view out.new.objects.items ≡ map object_view out.old.objects.items ++ made_in (plain_answer answer)) }
    ensures groups { OnOk result (map plain_item out.new.groups.items ≡ map plain_item out.old.groups.items ++ groups_by (plain_pending pending.entry) (plain_answer answer)) }
    ensures faults { OnOk result (out.new.faults ≡ out.old.faults ++ diags_in (plain_answer answer)) }
{
    match answer {
        ItemAnswer::Made(object) => {
            out.objects.push(object)?;
            if is_group(pending.kind()) {
                out.groups.push(pending.into_item(alloc, keys)?)?;
            }
            Ok(())
        }
        ItemAnswer::Diags(list) => add_diags(&mut out.faults, list),
        ItemAnswer::Blocked(_) => Ok(()),
    }
}

/// Adds diagnostics after others.
pub fn add_diags(out: &mut Diags, more: Diags) -> Result<(), OutOfMemory>
    ensures { OnOk result (out.new ≡ out.old ++ more) }
{
    for diag in more.into_vec() {
        out.push(diag)?;
    }
    Ok(())
}

/// Whether objects of a type are groups.
fn is_group(kind: &str) -> bool
    ensures { result ≡ group_type (type_named kind.now) }
{
    matches!(
        ObjectType::of_name(kind),
        Some(ObjectType::HostGroup | ObjectType::ServiceGroup | ObjectType::UserGroup)
    )
}
