// Laws of loads.
ghost use Rattle.std.specs.Prelude.{◌≡◌, ℕ, List};
ghost use Rattle.dsl_value.specs.declared.value.Value.{Value};
ghost use Rattle.eval_meaning.specs.Load.{load_run, loaded};
ghost use Rattle.eval_meaning.specs.Registered.{PlainFile};
ghost use Rattle.eval_meaning.specs.States.{State, gives};
ghost use Rattle.load_laws.specs.GoodNames.{HasGoodNames};

/// Whatever files are loaded, each item that they register has a name that an object may have: it isn't empty, and holds no `!` and no byte
/// below 32.
pub fn loads_register_good_names()
    ensures { (files : List PlainFile) (order : List ℕ) (v : Value) (s : State) → load_run files order ≡ gives v s → HasGoodNames (loaded s) }
{}
