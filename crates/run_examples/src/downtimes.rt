// Downtimes: which is in effect, how long each is live, and what cancels it.
ghost use Rattle.std.specs.Prelude.{◌≡◌, [], ◌∷◌, map, Some, None, true, false};
ghost use Rattle.site_model.specs.declared.event.Event.TheVariants as event;
ghost use Rattle.site_model.specs.declared.note_kind.NoteKind.TheVariants as kind;
ghost use Rattle.site_model.specs.declared.outcome.Outcome.TheVariants as outcome;
ghost use Rattle.site_model.specs.declared.state.State.TheVariants as state;
ghost use Rattle.run_meaning.specs.Downtimes.{in_effect, is_live};
ghost use Rattle.run_examples.specs.Sites.{host, logs_of, service, site};
ghost use Rattle.run_examples.specs.Turns.{empty, passive, of_status, with_event, with_events};
ghost use Rattle.run_examples.specs.Rows.{decided, on_one, row, rows_of, sent, taken_of};
ghost use Rattle.run_examples.specs.Histories.{at, void};

/// A downtime holds a problem back, which is told by a tick at its end.
pub fn downtime_then_problem()
    ensures { map rows_of (logs_of (site (service 1)) (with_event 50 (event.Down 100 200 true 0) ∷ passive 100 2 ∷ empty 200 ∷ [])) ≡
        (row 50 state.Okay true 1 [] ∷ [])
        ∷ (row 100 state.Critical true 1 (on_one kind.Problem (outcome.Downtime 1) ∷ []) ∷ [])
        ∷ (row 200 state.Critical true 1 (sent kind.Problem) ∷ [])
        ∷ [] }
{}

/// Of two that are in effect the one that starts first is named, and once it is over the other.
pub fn two_downtimes()
    ensures decided { map decided (logs_of (site (service 1)) (with_events 50 (event.Down 100 200 true 0 ∷ event.Down 90 150 true 0 ∷ []) ∷ passive 100 2 ∷ [])) ≡
        ([] ∷ [] ∷ []) ∷ ((on_one kind.Problem (outcome.Downtime 2) ∷ []) ∷ []) ∷ [] }
    ensures both { in_effect host (at 10 (event.Down 100 200 true 0) ∷ at 10 (event.Down 90 150 true 0) ∷ []) 120 ≡ Some 2 }
    ensures one { in_effect host (at 10 (event.Down 100 200 true 0) ∷ at 10 (event.Down 90 150 true 0) ∷ []) 150 ≡ Some 1 }
    ensures cancelled { in_effect host (at 10 (event.Down 100 200 true 0) ∷ at 10 (event.Down 90 150 true 0) ∷ at 20 (event.Undown 2) ∷ []) 120 ≡ Some 1 }
{}

/// A flexible one begins at a problem in its span, and lasts for its duration, also past its end and however long it is.
pub fn flexible_downtime()
    ensures lasts { in_effect (service 3) (at 50 (event.Down 100 200 false 50) ∷ at 190 (of_status 2) ∷ []) 239 ≡ Some 1 }
    ensures over { in_effect (service 3) (at 50 (event.Down 100 200 false 50) ∷ at 190 (of_status 2) ∷ []) 240 ≡ None }
    ensures late { in_effect (service 3) (at 50 (event.Down 100 200 false 50) ∷ at 200 (of_status 2) ∷ []) 200 ≡ None }
    ensures before { in_effect (service 3) (at 100 (of_status 2) ∷ at 100 (event.Down 100 200 false 50) ∷ []) 100 ≡ None }
    ensures first { in_effect (service 3) (at 50 (event.Down 100 200 false 50) ∷ at 110 (of_status 2) ∷ at 150 (of_status 2) ∷ []) 160 ≡ None }
    ensures long { in_effect (service 3) (at 10 (event.Down 10 20 false 18446744073709551615) ∷ at 15 (of_status 2) ∷ []) 99999999999 ≡ Some 1 }
{}

/// What a problem is depends on the checkable: at status 1 a service has one, a host hasn't.
pub fn triggered_by_its_own_problem()
    ensures service { in_effect (service 3) (at 50 (event.Down 100 200 false 50) ∷ at 110 (of_status 1) ∷ []) 110 ≡ Some 1 }
    ensures host { in_effect host (at 50 (event.Down 100 200 false 50) ∷ at 110 (of_status 1) ∷ []) 110 ≡ None }
    ensures live { is_live (service 3) (at 50 (event.Down 100 200 false 50) ∷ at 110 (of_status 1) ∷ []) 1 160 ≡ false }
    ensures still_live { is_live host (at 50 (event.Down 100 200 false 50) ∷ at 110 (of_status 1) ∷ []) 1 160 ≡ true }
{}

/// The problem itself that begins a downtime is held back by it.
pub fn triggering_problem()
    ensures { map decided (logs_of (site (service 1)) (with_event 50 (event.Down 100 200 false 50) ∷ passive 110 2 ∷ [])) ≡
        ([] ∷ []) ∷ ((on_one kind.Problem (outcome.Downtime 1) ∷ []) ∷ []) ∷ [] }
{}

/// A downtime is live until its end, a triggered one until its duration is over, and no longer once it was cancelled.
pub fn live_downtimes()
    ensures triggered { is_live (service 3) (at 50 (event.Down 100 200 false 50) ∷ at 190 (of_status 2) ∷ []) 1 239 ≡ true }
    ensures over { is_live (service 3) (at 50 (event.Down 100 200 false 50) ∷ at 190 (of_status 2) ∷ []) 1 240 ≡ false }
    ensures early { is_live (service 3) (at 50 (event.Down 100 200 false 50) ∷ at 110 (of_status 2) ∷ []) 1 160 ≡ false }
    ensures to_come { is_live host (at 10 (event.Down 100 200 true 0) ∷ []) 1 20 ≡ true }
    ensures cancelled { is_live host (at 10 (event.Down 100 200 true 0) ∷ at 20 (event.Undown 1) ∷ []) 1 30 ≡ false }
    ensures void { is_live host (at 10 (event.Down 100 200 true 0) ∷ void 20 (event.Undown 1) ∷ []) 1 30 ≡ true }
    ensures another { is_live host (at 10 (of_status 0) ∷ at 10 (event.Down 100 200 true 0) ∷ []) 1 20 ≡ false }
{}

/// The end of a downtime that isn't live is void.
pub fn void_ends()
    ensures { map taken_of (logs_of (site (service 1)) (with_event 10 (event.Down 100 200 true 0) ∷ with_events 20 (event.Undown 1 ∷ event.Undown 1 ∷ event.Undown 7 ∷ []) ∷ [])) ≡
        (true ∷ []) ∷ (true ∷ false ∷ false ∷ []) ∷ [] }
{}
