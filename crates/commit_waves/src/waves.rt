// One wave.
ghost use Rattle.std.specs.Prelude.{◌≡◌, ◌++◌, [], Some, IfOk, map};
ghost use Rattle.site_model.specs.PlainSite.{object_view};
ghost use Rattle.object_types.specs.Names.{all_types, type_name};
ghost use Rattle.eval_work.specs.Works.{plain_item};
ghost use Rattle.dsl_load.specs.Loads.{IsLoad, plain_parts};
ghost use Rattle.commit_meaning.specs.Waves.{limited, wave_world, wave_diags};
ghost use Rattle.wave_order.specs.WaveItems.{plain_pending};
ghost use Rattle.wave_objects.specs.Captured.{AreNamed};
ghost use Rattle.wave_objects.specs.Plain.{with_items};
ghost use Rattle.commit_waves.specs.Making.{IsWaveOf};
ghost use Rattle.commit_waves.specs.Plain.{plain_world};

use crate::maker::WaveMaker;
use crate::world::{add_groups, add_objects, view_before};
use dsl_load::LoadParts;
use eval_work::{Committed, Item, Known};
use site_base::{Diag, DiagKind, Diags, OutOfMemory, Row, Text};
use site_model::Object;
use std::alloc::Global;
use std::sync::Wait;
use std::thread::Threads;
use wave_objects::{
    Gathered, add_diags, gather, gather_by_many, join_groups, join_groups_by_many, make_objects,
    make_objects_by_many,
};
use wave_order::{Pending, diags_by_number};

/// A wave has so many items at most.
pub const MOST_ITEMS: usize = 1_000_000;

/// What a wave comes to: its objects, and what is wrong in it, by number.
#[derive(Drop)]
pub struct Wave {
    pub objects: Vec<Object>,
    pub list: Diags,
}

/// Makes the objects of a wave, from 1 on, over the objects that were committed and the items of the groups among them. The load
/// registered these items, and of its parts the rest; each item goes once its object is made. If nothing is wrong, the wave's groups stand
/// after the others then.
pub(crate) fn make_wave(
    alloc: Global,
    parts: &LoadParts,
    items: Vec<Item>,
    known: &Known,
    objects: &Committed,
    groups: &mut Vec<Item>,
    wave: u8,
) -> Result<Wave, OutOfMemory>
    requires whole { known.now.whole.items ≡ map type_name all_types }
    requires absent { known.now.absent.items ≡ [] }
    requires load { IsLoad (with_items items parts.now) }
    requires named { AreNamed parts.now.store (map plain_item groups.old.items) }
    ensures diags { IfOk result (λ x. x.list ≡ wave_diags (plain_parts (with_items items parts.now)) (plain_world objects.now groups.old.items) wave) }
    ensures world { IfOk result (λ x. x.list ≡ [] → plain_world (objects.now ++ x.objects.items) groups.new.items ≡ wave_world (plain_parts (with_items items parts.now)) (plain_world objects.now groups.old.items) wave) }
    ensures named { IfOk result (λ x. x.list ≡ [] → AreNamed parts.now.store (map plain_item groups.new.items)) }
{
    let view = view_before(parts, objects, known);
    let Gathered { items, mut faults } = gather(alloc, &view, parts, items, objects, wave)?;
    if items.len() > MOST_ITEMS {
        return too_many(alloc, &items[MOST_ITEMS]);
    }
    let made = make_objects(alloc, &view, items)?;
    add_groups(groups, made.groups)?;
    add_diags(&mut faults, made.faults)?;
    let joined = join_groups(alloc, &view, groups, made.objects, &mut faults)?;
    Ok(Wave {
        objects: joined,
        list: diags_by_number(faults)?,
    })
}

/// The same by so many workers at most, who share the wave's rules, items and groups among them.
pub(crate) fn make_wave_by_many<R: Threads + Wait + Sync>(
    rt: &R,
    alloc: Global,
    parts: &LoadParts,
    items: Vec<Item>,
    known: &Known,
    objects: &Committed,
    groups: &mut Vec<Item>,
    wave: u8,
    workers: u32,
) -> Result<Wave, OutOfMemory>
    requires whole { known.now.whole.items ≡ map type_name all_types }
    requires absent { known.now.absent.items ≡ [] }
    requires load { IsLoad (with_items items parts.now) }
    requires named { AreNamed parts.now.store (map plain_item groups.old.items) }
    ensures diags { IfOk result (λ x. x.list ≡ wave_diags (plain_parts (with_items items parts.now)) (plain_world objects.now groups.old.items) wave) }
    ensures world { IfOk result (λ x. x.list ≡ [] → plain_world (objects.now ++ x.objects.items) groups.new.items ≡ wave_world (plain_parts (with_items items parts.now)) (plain_world objects.now groups.old.items) wave) }
    ensures named { IfOk result (λ x. x.list ≡ [] → AreNamed parts.now.store (map plain_item groups.new.items)) }
{
    let view = view_before(parts, objects, known);
    let Gathered { items, mut faults } = gather_by_many(
        rt, alloc, &view, parts, items, objects, wave, workers,
    )?;
    if items.len() > MOST_ITEMS {
        return too_many(alloc, &items[MOST_ITEMS]);
    }
    let made = make_objects_by_many(rt, alloc, &view, items, workers)?;
    add_groups(groups, made.groups)?;
    add_diags(&mut faults, made.faults)?;
    let joined = join_groups_by_many(rt, alloc, &view, groups, made.objects, &mut faults, workers)?;
    Ok(Wave {
        objects: joined,
        list: diags_by_number(faults)?,
    })
}

/// A wave of which this item is the first that is one too many.
///
/// # Errors
///
/// `OutOfMemory` if there is too little memory for its diagnostic.
pub fn too_many(alloc: Global, item: &Pending) -> Result<Wave, OutOfMemory>
    ensures { IfOk result (λ x. x.list ≡ limited (Some (plain_pending item.now)) []) }
{
    let mut list = Row::new(alloc);
    list.push(Diag {
        number: item.number(),
        place: item.place(),
        kind: DiagKind::ItemLimit,
        text: Text::new(alloc),
    })?;
    Ok(Wave {
        objects: Vec::new(alloc),
        list,
    })
}

/// Runs a wave: what is wrong in it, by number. If nothing is, its objects are committed and its groups stand after the others then.
/// What is so of the maker goes on as `WaveMaker::make` says.
pub(crate) fn run_wave<M: WaveMaker>(
    alloc: Global,
    maker: &mut M,
    parts: &LoadParts,
    items: Vec<Item>,
    known: &Known,
    objects: &mut Committed,
    groups: &mut Vec<Item>,
    wave: u8,
) -> Result<Diags, OutOfMemory>
    requires apt { M.apt maker.old }
    requires whole { known.now.whole.items ≡ map type_name all_types }
    requires absent { known.now.absent.items ≡ [] }
    requires load { IsLoad (with_items items parts.now) }
    requires named { AreNamed parts.now.store (map plain_item groups.old.items) }
    ensures diags { IfOk result (λ ds. ds ≡ wave_diags (plain_parts (with_items items parts.now)) (plain_world objects.old groups.old.items) wave) }
    ensures world { IfOk result (λ ds. ds ≡ [] → plain_world objects.new groups.new.items ≡ wave_world (plain_parts (with_items items parts.now)) (plain_world objects.old groups.old.items) wave) }
    ensures named { IfOk result (λ ds. ds ≡ [] → AreNamed parts.now.store (map plain_item groups.new.items)) }
    ensures apt { M.apt maker.new }
    ensures holds { (load : _) (before : _) → IsWaveOf load before (plain_parts (with_items items parts.now)) (plain_world objects.old groups.old.items) wave → M.stands maker.old load before → M.holds maker.old load → M.holds maker.new load }
    ensures stands { (load : _) (before : _) → IsWaveOf load before (plain_parts (with_items items parts.now)) (plain_world objects.old groups.old.items) wave → M.stands maker.old load before → IfOk result (λ ds. ds ≡ [] → M.stands maker.new load wave) }
{
    let made = maker.make(alloc, parts, items, known, objects, groups, wave)?;
    add_objects(objects, made.objects)?;
    Ok(made.list)
}
