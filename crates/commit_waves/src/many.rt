// A commit by many workers.
ghost use Rattle.std.specs.Prelude.{◌≡◌, ◌≤◌, ◌++◌, Bool, [], map, IfOk};
ghost use Rattle.std.specs.Bool.{Decides};
ghost use Rattle.object_types.specs.Names.{all_types, type_name};
ghost use Rattle.eval_work.specs.Works.{plain_item};
ghost use Rattle.dsl_load.specs.Loads.{IsLoad, plain_parts};
ghost use Rattle.commit_meaning.specs.Commits.{commit};
ghost use Rattle.commit_meaning.specs.Waves.{wave_diags, wave_world};
ghost use Rattle.site_phases.specs.Constants.{AreBadBytes, settings_of};
ghost use Rattle.site_phases.specs.Phases.{FilesStay, IfSite, IsReady, answer_view, phases, site_made};
ghost use Rattle.wave_objects.specs.Captured.{AreNamed};
ghost use Rattle.wave_objects.specs.Plain.{with_items};
ghost use Rattle.commit_waves.specs.Globals.{globals_of};
ghost use Rattle.commit_waves.specs.Plain.{plain_world};

use crate::Loaded;
use crate::commit::commit_by;
use crate::maker::ManyWorkers;
use crate::waves::{Wave, make_wave_by_many};
use dsl_load::LoadParts;
use eval_work::{Committed, Item, Known};
use site_base::OutOfMemory;
use site_phases::Answer;
use std::alloc::Global;
use std::sync::Wait;
use std::thread::Threads;

/// What a load comes to, as [`crate::commit_one`] says, by so many workers at most, of which the caller is one. The tasks of a wave
/// are shared among them, and the next wave begins when all of these are done. The answer is the same for any number of workers,
/// and in whatever order their tasks end.
///
/// # Errors
///
/// `OutOfMemory` if there is too little memory for an object, or for what is made on the way.
pub fn commit_many<R: Threads + Wait + Sync>(
    rt: &R,
    alloc: Global,
    loaded: Loaded,
    workers: u32,
) -> Result<Answer, OutOfMemory>
    requires { IsLoad loaded.parts }
    // Whether the zone's file is one is what its reader says.
    ensures value { (bad : Bool) → Decides bad (AreBadBytes (settings_of (globals_of loaded.parts.store.cells loaded.zone)).zone)
        → IfOk result (λ a. answer_view a ≡ commit (λ os. phases loaded.files (globals_of loaded.parts.store.cells loaded.zone) os bad)
        (site_made loaded.files (globals_of loaded.parts.store.cells loaded.zone)) (plain_parts loaded.parts)) }
    ensures files { IfOk result (FilesStay loaded.files) }
    // A run may begin with every site that is given.
    ensures ready { IfOk result (λ a. IfSite a IsReady) }
{
    let mut maker = ManyWorkers {
        make: |alloc: Global, parts: &LoadParts, items: Vec<
            Item,
        >, known: &Known, objects: &Committed, groups: &mut Vec<Item>, wave: u8| -> Result<
            Wave,
            OutOfMemory,
        >
            requires whole { known.now.whole.items ≡ map type_name all_types }
            requires absent { known.now.absent.items ≡ [] }
            requires load { IsLoad (with_items items parts.now) }
            requires named { AreNamed parts.now.store (map plain_item groups.old.items) }
            ensures diags { IfOk result (λ x. x.list ≡ wave_diags (plain_parts (with_items items parts.now)) (plain_world objects.now groups.old.items) wave) }
            ensures world { IfOk result (λ x. x.list ≡ [] → plain_world (objects.now ++ x.objects.items) groups.new.items ≡ wave_world (plain_parts (with_items items parts.now)) (plain_world objects.now groups.old.items) wave) }
            ensures named { IfOk result (λ x. x.list ≡ [] → AreNamed parts.now.store (map plain_item groups.new.items)) }
        {
            make_wave_by_many(
                rt, alloc, parts, items, known, objects, groups, wave, workers,
            )
        },
    };
    commit_by(alloc, &mut maker, loaded)
}
