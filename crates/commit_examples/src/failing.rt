// Commits in whose waves something is wrong.
ghost use Rattle.std.specs.Prelude.{◌≡◌, ℕ, List, [], ◌∷◌, Some, slice_get};
ghost use Rattle.site_base.specs.declared.diag.Diag.{Diag};
ghost use Rattle.site_base.specs.declared.diag_kind.DiagKind.TheVariants as kind;
ghost use Rattle.site_model.specs.PlainSite.{PlainObject, PlainSite};
ghost use Rattle.eval_meaning.specs.Load.{Loaded};
ghost use Rattle.eval_meaning.specs.Registered.{PlainItem};
ghost use Rattle.commit_meaning.specs.Answers.{diag};
ghost use Rattle.commit_meaning.specs.Commits.{commit, refused};
ghost use Rattle.commit_meaning.specs.Waves.{most_items, wave_diags, wave_items};
ghost use Rattle.commit_meaning.specs.Worlds.{World};
ghost use Rattle.commit_examples.specs.Failing.{three_faults, two_waves, undefined};
ghost use Rattle.commit_examples.specs.Objects.{number, on_host};

/// The faults of the first wave that has any are told, by their numbers, and nothing of later waves or of all objects together, such as two
/// of one name.
pub fn the_first_failing_wave()
    ensures { (phases : List PlainObject → List (List Diag)) (last : List PlainObject → PlainSite) → commit phases last two_waves ≡ refused (undefined (number 2) ∷ undefined (number 3) ∷ []) }
{}

/// The faults of groups, of items and of rules are told together, by their numbers.
pub fn faults_of_one_wave()
    ensures { (phases : List PlainObject → List (List Diag)) (last : List PlainObject → PlainSite) → commit phases last three_faults ≡ refused (undefined (number 3) ∷ undefined (number 4) ∷ undefined (on_host 9 2 0) ∷ []) }
{}

/// If a wave has one item too many, that is told at the first of these and nothing else of the wave.
pub fn one_item_too_many()
    ensures { (load : Loaded) (before : World) (w : ℕ) (i : PlainItem) → slice_get (wave_items load before w) most_items ≡ Some i → wave_diags load before w ≡ diag i.number i.place kind.ItemLimit [] ∷ [] }
{}
