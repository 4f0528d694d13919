// Which cause of a suppression is told.
ghost use Rattle.std.specs.Prelude.{◌≡◌, [], ◌∷◌, map, None};
ghost use Rattle.site_model.specs.declared.note_kind.NoteKind.TheVariants as kind;
ghost use Rattle.site_model.specs.declared.outcome.Outcome.TheVariants as outcome;
ghost use Rattle.run_meaning.specs.Turns.{from_on};
ghost use Rattle.run_examples.specs.Causes.{outcome_without};
ghost use Rattle.run_examples.specs.Outlooks.{depends};
ghost use Rattle.run_examples.specs.Rows.{decided, on_one, sent};
ghost use Rattle.run_examples.specs.Sites.{host, logs_of, service, site};
ghost use Rattle.run_examples.specs.Turns.{of_host, passive};

/// Where all causes suppress a notification at once, the first one is told; without it the next one, and so on through all of
/// them, until it is sent.
pub fn each_cause_in_its_turn()
    ensures { map outcome_without (from_on 0 13) ≡
        outcome.Disabled
        ∷ outcome.Dependency 0
        ∷ outcome.Downtime 7
        ∷ outcome.Flapping
        ∷ outcome.Acknowledged
        ∷ outcome.Period
        ∷ outcome.Kind
        ∷ outcome.State
        ∷ outcome.TooEarly
        ∷ outcome.TooLate
        ∷ outcome.Repeat
        ∷ outcome.NoUsers
        ∷ outcome.Sent (0 ∷ [])
        ∷ [] }
{}

/// A service that depends on a host isn't told of while that is down for sure, and the dependency is named before the host.
pub fn dependency_in_a_run()
    ensures { map decided (logs_of (record (site (service 1)) { checkables = record host { max = 1 } ∷ service 1 ∷ []; depends = depends 1 0 None ∷ [] }) (of_host 10 2 ∷ passive 20 2 ∷ of_host 30 0 ∷ passive 40 1 ∷ [])) ≡
        [] ∷ ((on_one kind.Problem (outcome.Dependency 0) ∷ []) ∷ []) ∷ [] ∷ (sent kind.Problem ∷ []) ∷ [] }
{}
