// Who makes the objects of waves.
ghost use Rattle.std.specs.Prelude.{◌≡◌, ◌++◌, ℕ, [], IfOk, OnOk, map};
ghost use Rattle.object_types.specs.Names.{all_types, type_name};
ghost use Rattle.eval_meaning.specs.Load.{Loaded};
ghost use Rattle.eval_work.specs.Works.{plain_item};
ghost use Rattle.dsl_load.specs.Loads.{IsLoad, plain_parts};
ghost use Rattle.commit_meaning.specs.Waves.{wave_world, wave_diags};
ghost use Rattle.wave_objects.specs.Captured.{AreNamed};
ghost use Rattle.wave_objects.specs.Plain.{with_items};
ghost use Rattle.commit_waves.specs.Making.{IsWaveOf};
ghost use Rattle.commit_waves.specs.Plain.{plain_world};

use crate::waves::{Wave, make_wave};
use dsl_load::LoadParts;
use eval_work::{Committed, Item, Known};
use site_base::OutOfMemory;
use std::alloc::Global;

/// Who makes the objects of waves.
///
/// A maker may keep something from one wave to the next. What clauses can say of that is in `holds` and `stands`.
pub trait WaveMaker {
    /// What has to hold so that it makes them as `make` says. It holds after each wave too.
    ghost apt: { Self → Type 0 };

    /// What holds of it while the waves of a load are made, also once one of them failed.
    ghost holds: { Self → Loaded → Type 0 };

    /// What stands in it after so many waves of a load, if nothing was wrong in them.
    ghost stands: { Self → Loaded → ℕ → Type 0 };

    /// Makes the objects of a wave, from 1 on, over the objects that were committed and the items of the groups among them. The load
    /// registered these items, and of its parts the rest; each item goes once its object is made. If nothing is wrong, the wave's groups
    /// stand after the others then.
    ///
    /// # Errors
    ///
    /// `OutOfMemory` if there is too little memory for an object, or for what is made on the way.
    fn make(
        &mut self,
        alloc: Global,
        parts: &LoadParts,
        items: Vec<Item>,
        known: &Known,
        objects: &Committed,
        groups: &mut Vec<Item>,
        wave: u8,
    ) -> Result<Wave, OutOfMemory>
        requires apt { apt self.old }
        requires whole { known.now.whole.items ≡ map type_name all_types }
        requires absent { known.now.absent.items ≡ [] }
        requires load { IsLoad (with_items items parts.now) }
        requires named { AreNamed parts.now.store (map plain_item groups.old.items) }
        ensures diags { IfOk result (λ x. x.list ≡ wave_diags (plain_parts (with_items items parts.now)) (plain_world objects.now groups.old.items) wave) }
        ensures world { IfOk result (λ x. x.list ≡ [] → plain_world (objects.now ++ x.objects.items) groups.new.items ≡ wave_world (plain_parts (with_items items parts.now)) (plain_world objects.now groups.old.items) wave) }
        ensures named { IfOk result (λ x. x.list ≡ [] → AreNamed parts.now.store (map plain_item groups.new.items)) }
        ensures apt { apt self.new }
        ensures holds { (load : Loaded) (before : ℕ) → IsWaveOf load before (plain_parts (with_items items parts.now)) (plain_world objects.now groups.old.items) wave → stands self.old load before → holds self.old load → holds self.new load }
        ensures stands { (load : Loaded) (before : ℕ) → IsWaveOf load before (plain_parts (with_items items parts.now)) (plain_world objects.now groups.old.items) wave → stands self.old load before → IfOk result (λ x. x.list ≡ [] → stands self.new load wave) };
}

/// One worker: no thread is made.
#[derive(Drop)]
pub(crate) struct OneWorker;

impl WaveMaker for OneWorker {
    ghost apt = { λ _. Unit {0} };

    ghost holds = { λ _ _. Unit {0} };

    ghost stands = { λ _ _ _. Unit {0} };

    fn make(
        &mut self,
        alloc: Global,
        parts: &LoadParts,
        items: Vec<Item>,
        known: &Known,
        objects: &Committed,
        groups: &mut Vec<Item>,
        wave: u8,
    ) -> Result<Wave, OutOfMemory> {
        make_wave(alloc, parts, items, known, objects, groups, wave)
    }
}

/// Several workers. A closure makes each wave: it has what threads are made and waited for by.
#[derive(Drop)]
pub(crate) struct ManyWorkers<M> {
    pub(crate) make: M,
}

impl<
    M: Fn(
        Global,
        &LoadParts,
        Vec<Item>,
        &Known,
        &Committed,
        &mut Vec<Item>,
        u8,
    ) -> Result<Wave, OutOfMemory>,
> WaveMaker for ManyWorkers<M> {
    ghost apt = { λ w. ((alloc : _) (parts : _) (items : _) (known : _) (objects : _) (groups : _) (wave : _) →
        known.now.whole.items ≡ map type_name all_types → known.now.absent.items ≡ [] → IsLoad (with_items items parts.now) → AreNamed parts.now.store (map plain_item groups.now.items) →
        M.pre w.make alloc parts items known objects groups wave) ×
        ((alloc : _) (parts : _) (items : _) (known : _) (objects : _) (groups : _) (wave : _) (out : _) (left : _) → M.post w.make alloc parts items known objects groups wave out left →
        IfOk out (λ x. x.list ≡ wave_diags (plain_parts (with_items items parts.now)) (plain_world objects.now groups.now.items) wave) ×
        IfOk out (λ x. x.list ≡ [] → plain_world (objects.now ++ x.objects.items) left.now.items ≡ wave_world (plain_parts (with_items items parts.now)) (plain_world objects.now groups.now.items) wave) ×
        IfOk out (λ x. x.list ≡ [] → AreNamed parts.now.store (map plain_item left.now.items))) };

    ghost holds = { λ _ _. Unit {0} };

    ghost stands = { λ _ _ _. Unit {0} };

    fn make(
        &mut self,
        alloc: Global,
        parts: &LoadParts,
        items: Vec<Item>,
        known: &Known,
        objects: &Committed,
        groups: &mut Vec<Item>,
        wave: u8,
    ) -> Result<Wave, OutOfMemory> {
        (self.make)(alloc, parts, items, known, objects, groups, wave)
    }
}
