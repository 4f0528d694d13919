// Laws of names, and of the sites that have them.
ghost use Rattle.std.specs.Prelude.{ℕ, List};
ghost use Rattle.eval_meaning.specs.Load.{Loaded};
ghost use Rattle.load_laws.specs.GoodNames.{HasGoodNames};
ghost use Rattle.typed_site.specs.TypedSite.{PlainSettings};
ghost use Rattle.audit_laws.specs.Commits.{MakesRuns, NamesWell};

/// The site of a commit is named well if the load registered names that objects may have: a host's name is one of these, and a
/// service's is its own after that of its host, also if groups took it in.
pub fn commits_name_well()
    ensures { (load : Loaded) (files : List (List ℕ)) (settings : PlainSettings) → HasGoodNames load → NamesWell load files settings }
{}

/// A run can be made of the site of a commit if a run may begin with it, and what is printed of it is UTF-8.
pub fn sites_of_commits_make_runs()
    ensures { (load : Loaded) (files : List (List ℕ)) (settings : PlainSettings) → HasGoodNames load → MakesRuns load files settings }
{}
