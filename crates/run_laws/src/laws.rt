// Laws of what callers tell, and of who is due.
ghost use Rattle.std.specs.Prelude.{◌≡◌, ◌++◌, ℕ, List, true, map, AllPairs, IsPermutation};
ghost use Rattle.run_meaning.specs.Acts.{Rules};
ghost use Rattle.run_meaning.specs.Rounds.{IsRound};
ghost use Rattle.run_meaning.specs.Schedule.{Watch, due_from, goes_first};
ghost use Rattle.run_meaning.specs.Turns.{Asked, Histories};
ghost use Rattle.run_laws.specs.Due.{due_by_index};
ghost use Rattle.run_laws.specs.Idle.{AreIdle};
ghost use Rattle.run_laws.specs.Traces.{AreTraced, Trace, events_in};

/// Callers that take events at once make a round, where each of them can tell of each of its events, in their order, which
/// entries stood on its checkable when it was taken, and how far the checkables on which that depends had been seen by
/// then. What was seen may be older than what stood.
pub fn traces_make_a_round()
    ensures { (r : Rules) (moment : ℕ) (before : Histories) (traces : List (List Trace)) (round : Histories) → AreTraced r moment before traces round → IsRound r moment before (map events_in traces) round }
{}

/// A round of some callers is one of more callers too, if these have no events.
pub fn idle_callers_change_no_round()
    ensures { (r : Rules) (moment : ℕ) (before : Histories) (events more : List (List Asked)) (round : Histories) → AreIdle more → IsRound r moment before events round → IsRound r moment before (events ++ more) round }
{}

/// The checkables that are due are walked in their order, by the moment since which they are due and then by index, and each
/// of them once.
pub fn due_ones_stand_in_order()
    ensures same { (moment k : ℕ) (ws : List Watch) → IsPermutation (due_by_index moment k ws) (due_from moment k ws) }
    ensures order { (moment k : ℕ) (ws : List Watch) → AllPairs (λ d e. goes_first d e ≡ true) (due_from moment k ws) }
{}
