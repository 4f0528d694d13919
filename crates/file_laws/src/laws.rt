// Laws of the files in which objects stand.
ghost use Rattle.std.specs.Prelude.{◌≡◌, ◌<◌, ℕ, List, All, length};
ghost use Rattle.dsl_value.specs.declared.value.Value.{Value};
ghost use Rattle.eval_meaning.specs.Load.{load_run, loaded};
ghost use Rattle.eval_meaning.specs.Registered.{PlainFile};
ghost use Rattle.eval_meaning.specs.States.{State, gives};
ghost use Rattle.commit_meaning.specs.Commits.{committed};
ghost use Rattle.file_laws.specs.Standing.{StandAmong};

/// If all syntax of files stands in one of these files, so does each object that their load commits, whatever they hold.
pub fn objects_stand_in_their_files()
    ensures { (files : List PlainFile) (order : List ℕ) (v : Value) (s : State) → StandAmong files → load_run files order ≡ gives v s → All (λ o. o.place.file < length files) (committed (loaded s)) }
{}
