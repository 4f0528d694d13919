// Two callers at once.
ghost use Rattle.std.specs.Prelude.{◌≡◌, [], ◌∷◌, map};
ghost use Rattle.run_meaning.specs.Runs.{IsRun};
ghost use Rattle.run_meaning.specs.Dealing.{refused_report};
ghost use Rattle.run_examples.specs.Turns.{of_status};
ghost use Rattle.run_examples.specs.Rows.{order, orders_of};
ghost use Rattle.caller_examples.specs.Callers.{b, done, done_in, first, good, line_first, report_first, turns};

/// Of two callers, one takes a passive problem of a service and one the report of its order: either entry may come first.
pub fn two_callers_on_a_service()
    ensures line { IsRun b 2 first turns line_first }
    ensures report { IsRun b 2 first turns report_first }
    ensures line_entries { map done_in line_first ≡ [] ∷ (done 0 (of_status 2) ∷ done 1 good ∷ []) ∷ [] ∷ [] }
    ensures report_entries { map done_in report_first ≡ [] ∷ (done 1 good ∷ done 0 (of_status 2) ∷ []) ∷ [] ∷ [] }
    ensures orders { map orders_of line_first ≡ (order 1 1 ∷ []) ∷ [] ∷ [] ∷ [] }
    ensures refusals { map (λ l. l.refusals) report_first ≡ [] ∷ [] ∷ (refused_report 1 ∷ []) ∷ [] }
{}
