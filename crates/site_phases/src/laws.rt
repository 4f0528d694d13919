// What it means that a dependency is on a cycle, and what is told before what.
ghost use Rattle.std.specs.Prelude.{◌≡◌, ℕ, Bool, List, [], ◌∷◌};
ghost use Rattle.conf_check.specs.Duplicates.{duplicate_faults};
ghost use Rattle.conf_check.specs.References.{reference_faults};
ghost use Rattle.commit_meaning.specs.Commits.{refused};
ghost use Rattle.depend_graph.specs.Parents.{HasParents};
ghost use Rattle.site_base.specs.declared.diag.Diag.{Diag};
ghost use Rattle.site_model.specs.PlainSite.{PlainObject, PlainSite};
ghost use Rattle.site_phases.specs.Constants.{PlainGlobals};
ghost use Rattle.site_phases.specs.CycleFaults.{AreTurning, cycle_faults, turning};
ghost use Rattle.site_phases.specs.Phases.{last_part, site_made};

/// The dependencies that are told are those whose child is reached from their parent over any number of steps.
pub fn cycles_are_those_of_any_length()
    ensures { (s : PlainSite) → HasParents s → AreTurning s (turning s) }
{}

/// A cycle of dependencies is told, and nothing of the constants beside it, if no name stands twice and none is missing.
pub fn cycles_are_told_before_constants()
    ensures { (files : List (List ℕ)) (g : PlainGlobals) (os : List PlainObject) (bad : Bool) (d : Diag) (ds : List Diag)
        → duplicate_faults files os ≡ [] → reference_faults os ≡ []
        → cycle_faults (site_made files g os) (turning (site_made files g os)) ≡ d ∷ ds → last_part files g os bad ≡ refused (d ∷ ds) }
{}
