// Laws of whole commits.
ghost use Rattle.std.specs.Prelude.{◌≡◌, ℕ, List, [], All, map};
ghost use Rattle.site_base.specs.declared.diag.Diag.{Diag};
ghost use Rattle.site_model.specs.PlainSite.{PlainObject, PlainSite};
ghost use Rattle.dsl_value.specs.declared.value.Value.{Value};
ghost use Rattle.eval_meaning.specs.Registered.{PlainFile};
ghost use Rattle.eval_meaning.specs.Load.{Loaded, load_run, loaded};
ghost use Rattle.eval_meaning.specs.States.{State, gives};
ghost use Rattle.eval_meaning.specs.Registration.{types};
ghost use Rattle.eval_meaning.specs.Views.{View, IsWorld};
ghost use Rattle.site_model.specs.Sound.{AreDistinct};
ghost use Rattle.object_types.specs.Names.{all_types, type_name};
ghost use Rattle.object_types.specs.declared.object_type.ObjectType.{ObjectType};
ghost use Rattle.conf_check.specs.Duplicates.{duplicate_faults};
ghost use Rattle.conf_check.specs.Keys.{has_object, names_of};
ghost use Rattle.conf_check.specs.References.{reference_faults};
ghost use Rattle.conf_check.specs.Standing.{NamesAreThere};
ghost use Rattle.commit_meaning.specs.Commits.{commit};
ghost use Rattle.commit_laws.specs.Registered.{GivesRegistered, IsRegistered};
ghost use Rattle.commit_laws.specs.Accounts.{AnswersAll, LosesNothing};
ghost use Rattle.commit_laws.specs.Fates.{CommitLosesNothing};
ghost use Rattle.commit_laws.specs.Numbering.{RisesThroughout};

/// A load takes objects and rules of exactly the types that have a schema and a wave, in one order.
pub fn a_load_takes_all_types()
    ensures { types ≡ map type_name all_types }
{}

/// Whatever files a load runs: its items and rules are of the types, its rules go to types to which rules of their own go, and both
/// are numbered as they are registered, so that no two of them have one number.
pub fn a_load_registers_by_types()
    ensures { (files : List PlainFile) (order : List ℕ) → GivesRegistered (load_run files order) }
{}

/// Over a world no item, no rule and no group is blocked: something is made of each, or something is told under its number.
pub fn a_world_answers_every_task()
    ensures { (world : View) → IsWorld world → AnswersAll world }
{}

/// A wave makes its part of each of its items, rules and groups, or tells what is wrong with it, whatever is loaded.
pub fn a_wave_loses_nothing()
    ensures { (load : Loaded) (w : ℕ) → LosesNothing load w }
{}

/// A commit loses nothing: each item that was registered, each item that a rule made, each rule at each target and each object that
/// groups may take has its part in the site, or the commit is refused, and then by its own diagnostics, by too many items, by an
/// earlier wave, or by something else.
pub fn a_commit_loses_nothing()
    ensures { (phases : List PlainObject → List (List Diag)) (last : List PlainObject → PlainSite) (load : Loaded) → IsRegistered load → CommitLosesNothing load (commit phases last load) }
{}

/// No two items of a wave have one number, and numbers rise in committed order, those of targets too.
pub fn numbers_rise()
    ensures { (load : Loaded) → IsRegistered load → RisesThroughout load }
{}

/// Whatever files a load runs: if it ends without a fault, its commit loses nothing, and numbers its items as `numbers_rise` says.
pub fn a_commit_of_files_loses_nothing()
    ensures loses_nothing { (phases : List PlainObject → List (List Diag)) (last : List PlainObject → PlainSite) (files : List PlainFile) (order : List ℕ) (v : Value) (s : State) → load_run files order ≡ gives v s → CommitLosesNothing (loaded s) (commit phases last (loaded s)) }
    ensures rises { (files : List PlainFile) (order : List ℕ) (v : Value) (s : State) → load_run files order ≡ gives v s → RisesThroughout (loaded s) }
{}

/// Of objects whose full names differ in each type no duplicate is told, and if each name in an object is that of one, no
/// missing name is. Together with `objects_without_faults_stand` of conf_check: these faults are told of the objects that have
/// them, and of no others.
pub fn objects_that_stand_have_no_faults()
    ensures apart { (files : List (List ℕ)) (os : List PlainObject) → ((t : ObjectType) → AreDistinct (names_of t os)) → duplicate_faults files os ≡ [] }
    ensures there { (os : List PlainObject) → All (NamesAreThere (has_object os)) os → reference_faults os ≡ [] }
{}
