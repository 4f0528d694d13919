// The items of a wave.
ghost use Rattle.std.specs.Prelude.{◌≡◌, ◌++◌, IfOk, OnOk, map};
ghost use Rattle.std.specs.List.{filter, flat_map};
ghost use Rattle.site_model.specs.PlainSite.{object_view};
ghost use Rattle.dsl_value.specs.Contents.{Contents};
ghost use Rattle.eval_work.specs.Kept.{RulesNamed};
ghost use Rattle.eval_work.specs.Works.{view_of, plain_item};
ghost use Rattle.apply_rules.specs.Plain.{plain_instance};
ghost use Rattle.item_start.specs.Ready.{IsLawfulView};
ghost use Rattle.dsl_load.specs.Loads.{plain_parts};
ghost use Rattle.commit_meaning.specs.Answers.{diags_in};
ghost use Rattle.commit_meaning.specs.Orders.{by_number};
ghost use Rattle.commit_meaning.specs.Waves.{is_in_wave as in_wave, item_number, wave_items, wave_answers};
ghost use Rattle.commit_meaning.specs.Worlds.{world_view};
ghost use Rattle.wave_order.specs.WaveItems.{AreWaitingIn, as_made, plain_pending};
ghost use Rattle.wave_objects.specs.Applying.{AppliedShared, faults_by, made_by, pending_by};
ghost use Rattle.wave_objects.specs.Plain.{with_items};
ghost use Rattle.wave_objects.specs.Steps.{over};

use crate::applying::{Applied, apply_to_all, unapplied};
use crate::making::add_diags;
use apply_rules::Instance;
use dsl_load::LoadParts;
use eval_work::{Committed, Item, WorldView};
use site_base::{Diags, OutOfMemory, Row};
use std::alloc::Global;
use wave_order::{Pending, add_registered, items_by_number};

/// The items of a wave before their turn, and what is wrong with its rules.
#[derive(Drop)]
pub struct Gathered<'a> {
    pub items: Vec<Pending<'a>>,
    pub faults: Diags,
}

/// Gathers the items of a wave, from 1 to 6, by their numbers: those of these items that are of it, and those that the rules of the
/// wave make at what stands before it.
pub fn gather<'a>(
    alloc: Global,
    view: &WorldView,
    parts: &'a LoadParts,
    items: Vec<Item>,
    objects: &'a Committed,
    wave: u8,
) -> Result<Gathered<'a>, OutOfMemory>
    requires lawful { IsLawfulView view.now }
    requires captured { RulesNamed view.now.store.now parts.now.rules.items }
    requires view { view_of view.now ≡ world_view (plain_parts parts.now) (map object_view objects.now) }
    ensures items { IfOk result (λ g. map plain_pending g.items.items ≡ wave_items (plain_parts (with_items items parts.now)) (over objects.now) wave) }
    ensures faults { IfOk result (λ g. g.faults ≡ flat_map diags_in (wave_answers (plain_parts (with_items items parts.now)) (over objects.now) wave)) }
    ensures shared { IfOk result (λ g. AreWaitingIn view.now.store.now g.items.items) }
{
    let mut rules = unapplied(alloc, &parts.rules, wave)?;
    apply_to_all(alloc, view, objects, &mut rules)?;
    put_together(alloc, items, rules, wave)
}

/// The items of a wave, by their numbers: those of these items that are of it, and those that its rules have made.
///
/// # Errors
///
/// `OutOfMemory` if there is too little memory for the list of them.
pub fn put_together<'a>(
    alloc: Global,
    items: Vec<Item>,
    rules: Vec<Applied<'a>>,
    wave: u8,
) -> Result<Gathered<'a>, OutOfMemory>
    ensures items { IfOk result (λ g. map plain_pending g.items.items ≡ by_number item_number (filter (λ i. in_wave wave i.kind) (map plain_item items.items) ++ flat_map made_by rules.entry.items)) }
    ensures faults { IfOk result (λ g. g.faults ≡ flat_map faults_by rules.entry.items) }
    ensures shared { (s : Contents) → AppliedShared s rules.entry.items → IfOk result (λ g. AreWaitingIn s g.items.items) }
{
    let mut gathered = Gathered {
        items: Vec::new(alloc),
        faults: Row::new(alloc),
    };
    add_registered(&mut gathered.items, items, wave)?;
    add_applied(rules, &mut gathered)?;
    Ok(Gathered {
        items: items_by_number(gathered.items)?,
        faults: gathered.faults,
    })
}

/// Adds what rules have made, one rule after another.
fn add_applied<'a>(rules: Vec<Applied<'a>>, out: &mut Gathered<'a>) -> Result<(), OutOfMemory>
    ensures items { OnOk result (map plain_pending out.new.items.items ≡ map plain_pending out.old.items.items ++ flat_map made_by rules.entry.items) }
    ensures faults { OnOk result (out.new.faults ≡ out.old.faults ++ flat_map faults_by rules.entry.items) }
    ensures whole { OnOk result (out.new.items.items ≡ out.old.items.items ++ flat_map pending_by rules.entry.items) }
{
    for applied in rules {
        add_made(applied.made, &mut out.items)?;
        add_diags(&mut out.faults, applied.faults)?;
    }
    Ok(())
}

fn add_made<'a>(made: Vec<Instance<'a>>, out: &mut Vec<Pending<'a>>) -> Result<(), OutOfMemory>
    ensures items { OnOk result (map plain_pending out.new.items ≡ map plain_pending out.old.items ++ map plain_instance made.entry.items) }
    ensures whole { OnOk result (out.new.items ≡ out.old.items ++ map as_made made.entry.items) }
{
    out.reserve_exact(made.len())?;
    for instance in made {
        out.push(Pending::Made(instance))?;
    }
    Ok(())
}
