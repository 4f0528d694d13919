// A commit.
ghost use Rattle.std.specs.Prelude.{◌≡◌, ◌<◌, ◌^◌, ◌-◌, ◌++◌, Bool, All, [], length, map, true, IfOk};
ghost use Rattle.std.specs.Bool.{Decides};
ghost use Rattle.object_types.specs.Names.{all_types, type_name};
ghost use Rattle.site_model.specs.PlainSite.{object_view};
ghost use Rattle.eval_work.specs.Works.{plain_item};
ghost use Rattle.dsl_load.specs.Loads.{IsLoad, plain_parts};
ghost use Rattle.commit_meaning.specs.Commits.{commit, committed, first_told, waves};
ghost use Rattle.commit_meaning.specs.Waves.{diags_of, wave_diags, wave_world};
ghost use Rattle.site_phases.specs.Constants.{AreBadBytes, globals_view, settings_of};
ghost use Rattle.site_phases.specs.Phases.{FilesStay, IfSite, IsReady, answer_view, last_part, phases, site_made};
ghost use Rattle.wave_objects.specs.Captured.{AreNamed};
ghost use Rattle.wave_objects.specs.Plain.{with_items};
ghost use Rattle.commit_waves.specs.Globals.{globals_of};
ghost use Rattle.commit_waves.specs.Making.{IsWaveOf};
ghost use Rattle.commit_waves.specs.Plain.{plain_world};

use crate::Loaded;
use crate::maker::{OneWorker, WaveMaker};
use crate::site_globals::site_globals;
use crate::waves::run_wave;
use crate::world::all_known;
use dsl_load::LoadParts;
use eval_work::{Committed, Item, Known};
use site_base::{Diags, OutOfMemory, Row, Texts};
use site_model::Object;
use site_phases::{Answer, last_phases};
use std::alloc::Global;
use wave_order::{Split, split_wave};

/// The number of the last wave.
const LAST_WAVE: u8 = 6;

/// What a load comes to: a site, or what is wrong with it.
///
/// The objects are made wave after wave (Icinga 2 documentation, Object Types): commands and time periods; users and their groups;
/// groups of hosts and of services; hosts; services; and what belongs to these. What is evaluated sees the objects of the waves
/// before its own. The diagnostics of the first wave that has any are the answer, by number, and nothing of a later one is made;
/// then come those of all objects together, as `last_phases` (site_phases) says. A wave of more than 1,000,000 items has an
/// `ItemLimit` at the first that is one too many, and no other.
///
/// What the load registered goes item after item, as their objects are made, and the rest of it before the site is made of the
/// objects, so that not all of it takes memory at once.
pub fn commit_one(alloc: Global, loaded: Loaded) -> Result<Answer, OutOfMemory>
    requires { IsLoad loaded.parts }
    // Whether the zone's file is one is what its reader says.
    ensures value { (bad : Bool) → Decides bad (AreBadBytes (settings_of (globals_of loaded.parts.store.cells loaded.zone)).zone)
        → IfOk result (λ a. answer_view a ≡ commit (λ os. phases loaded.files (globals_of loaded.parts.store.cells loaded.zone) os bad)
        (site_made loaded.files (globals_of loaded.parts.store.cells loaded.zone)) (plain_parts loaded.parts)) }
    ensures files { IfOk result (FilesStay loaded.files) }
    // A run may begin with every site that is given.
    ensures ready { IfOk result (λ a. IfSite a IsReady) }
{
    let mut maker = OneWorker;
    commit_by(alloc, &mut maker, loaded)
}

/// The same, whoever makes the objects of the waves. If a maker stands before the first wave of the load, it stands after the last one once
/// there is a site.
///
/// # Errors
///
/// `OutOfMemory` if there is too little memory for an object, or for what is made on the way.
pub fn commit_by<M: WaveMaker>(
    alloc: Global,
    maker: &mut M,
    loaded: Loaded,
) -> Result<Answer, OutOfMemory>
    requires apt { M.apt maker.old }
    requires load { IsLoad loaded.parts }
    // Whether the zone's file is one is what its reader says.
    ensures value { (bad : Bool) → Decides bad (AreBadBytes (settings_of (globals_of loaded.parts.store.cells loaded.zone)).zone)
        → IfOk result (λ a. answer_view a ≡ commit (λ os. phases loaded.files (globals_of loaded.parts.store.cells loaded.zone) os bad)
        (site_made loaded.files (globals_of loaded.parts.store.cells loaded.zone)) (plain_parts loaded.parts)) }
    ensures files { IfOk result (FilesStay loaded.files) }
    // A run may begin with every site that is given.
    ensures ready { IfOk result (λ a. IfSite a IsReady) }
    ensures apt { M.apt maker.new }
    ensures holds { M.stands maker.old (plain_parts loaded.parts) 0 → M.holds maker.old (plain_parts loaded.parts) → M.holds maker.new (plain_parts loaded.parts) }
    ensures stands { M.stands maker.old (plain_parts loaded.parts) 0 → IfOk result (λ a. IfSite a (λ _. M.stands maker.new (plain_parts loaded.parts) 6)) }
{
    let known = all_known(alloc)?;
    let Loaded { files, parts, zone } = loaded;
    let LoadParts {
        store,
        templates,
        items,
        rules,
    } = parts;
    let parts = LoadParts {
        store,
        templates,
        items: Vec::new(alloc),
        rules,
    };
    let made = run_waves(alloc, maker, &parts, items, &known)?;
    if !made.list.is_empty() {
        return Ok(Answer::Diags {
            files,
            list: made.list,
        });
    }
    finish(alloc, Loaded { files, parts, zone }, made.objects)
}

/// What the waves come to: the objects that they made, all of them if nothing is wrong, and what is wrong.
#[derive(Drop)]
struct Run {
    objects: Vec<Object>,
    list: Diags,
}

/// Runs the waves, one after another, up to the first in which something is wrong, over these items of a load and the rest of its parts.
fn run_waves<M: WaveMaker>(
    alloc: Global,
    maker: &mut M,
    parts: &LoadParts,
    items: Vec<Item>,
    known: &Known,
) -> Result<Run, OutOfMemory>
    requires apt { M.apt maker.old }
    requires load { IsLoad (with_items items parts.now) }
    requires whole { known.now.whole.items ≡ map type_name all_types }
    requires absent { known.now.absent.items ≡ [] }
    ensures diags { IfOk result (λ r. r.list ≡ first_told (map (diags_of (plain_parts (with_items items parts.now))) waves)) }
    ensures objects { IfOk result (λ r. r.list ≡ [] → map object_view r.objects.items ≡ committed (plain_parts (with_items items parts.now))) }
    ensures apt { M.apt maker.new }
    ensures holds { M.stands maker.old (plain_parts (with_items items parts.now)) 0 → M.holds maker.old (plain_parts (with_items items parts.now)) → M.holds maker.new (plain_parts (with_items items parts.now)) }
    ensures stands { M.stands maker.old (plain_parts (with_items items parts.now)) 0 → IfOk result (λ r. r.list ≡ [] → M.stands maker.new (plain_parts (with_items items parts.now)) 6) }
{
    let mut objects = Committed::new(alloc);
    let mut groups = Vec::new(alloc);
    let mut left = items;
    let mut wave = 0;
    while wave < LAST_WAVE - 1 {
        wave += 1;
        let Split { of_wave, others } = split_wave(alloc, left, wave)?;
        left = others;
        let list = run_wave(
            alloc,
            maker,
            parts,
            of_wave,
            known,
            &mut objects,
            &mut groups,
            wave,
        )?;
        if !list.is_empty() {
            return Ok(Run {
                objects: Vec::new(alloc),
                list,
            });
        }
    }
    run_last(alloc, maker, parts, left, known, objects, groups)
}

/// Runs the last wave. Nothing looks its objects up, so they stand after the others without being committed.
fn run_last<M: WaveMaker>(
    alloc: Global,
    maker: &mut M,
    parts: &LoadParts,
    items: Vec<Item>,
    known: &Known,
    objects: Committed,
    groups: Vec<Item>,
) -> Result<Run, OutOfMemory>
    requires apt { M.apt maker.old }
    requires load { IsLoad (with_items items parts.now) }
    requires whole { known.now.whole.items ≡ map type_name all_types }
    requires absent { known.now.absent.items ≡ [] }
    requires named { AreNamed parts.now.store (map plain_item groups.items) }
    ensures diags { IfOk result (λ r. r.list ≡ wave_diags (plain_parts (with_items items parts.now)) (plain_world objects groups.items) 6) }
    ensures objects { IfOk result (λ r. r.list ≡ [] → map object_view r.objects.items ≡ (wave_world (plain_parts (with_items items parts.now)) (plain_world objects groups.items) 6).objects) }
    ensures apt { M.apt maker.new }
    ensures holds { (load : _) (before : _) → IsWaveOf load before (plain_parts (with_items items parts.now)) (plain_world objects groups.items) 6 → M.stands maker.old load before → M.holds maker.old load → M.holds maker.new load }
    ensures stands { (load : _) (before : _) → IsWaveOf load before (plain_parts (with_items items parts.now)) (plain_world objects groups.items) 6 → M.stands maker.old load before → IfOk result (λ r. r.list ≡ [] → M.stands maker.new load 6) }
{
    let mut groups = groups;
    let made = maker.make(alloc, parts, items, known, &objects, &mut groups, LAST_WAVE)?;
    Ok(Run {
        objects: with_objects(objects.into_vec(), made.objects)?,
        list: made.list,
    })
}

/// Objects, and more of them after these, in no more memory than they need.
fn with_objects(objects: Vec<Object>, more: Vec<Object>) -> Result<Vec<Object>, OutOfMemory>
    ensures { IfOk result (λ all. all.items ≡ objects.items ++ more.items) }
{
    let mut all = objects;
    let mut more = more;
    all.reserve_exact(more.len())?;
    all.append(&mut more)?;
    Ok(all)
}

/// The last phases over all objects.
fn finish(alloc: Global, loaded: Loaded, objects: Vec<Object>) -> Result<Answer, OutOfMemory>
    requires load { IsLoad loaded.parts }
    requires few { length objects.items < 2 ^ 32 - 2 }
    ensures value { (bad : Bool) → Decides bad (AreBadBytes (settings_of (globals_of loaded.parts.store.cells loaded.zone)).zone)
        → IfOk result (λ a. answer_view a ≡ last_part loaded.files (globals_of loaded.parts.store.cells loaded.zone) (map object_view objects.items) bad) }
    ensures files { IfOk result (FilesStay loaded.files) }
    ensures ready { IfOk result (λ a. IfSite a IsReady) }
{
    // Each object stands in a file of the load, so this gives up nowhere.
    if !are_placed(&loaded.files, &objects) {
        return Err(OutOfMemory);
    }
    let Loaded { files, parts, zone } = loaded;
    let globals = site_globals(parts, zone)?;
    last_phases(alloc, files, Row::from(objects), globals)
}

/// Whether each object stands in one of these files.
fn are_placed(files: &Texts, objects: &[Object]) -> bool
    ensures { result ≡ true → All (λ o. o.place.file < length files.now) objects.now }
{
    for object in objects {
        if object.place.file as usize >= files.len() {
            return false;
        }
    }
    true
}
