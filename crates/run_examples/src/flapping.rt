// Checkables that change their states too often.
ghost use Rattle.std.specs.Prelude.{◌≡◌, ◌*◌, [], ◌∷◌, map, drop, reverse, true, false};
ghost use Rattle.site_model.specs.declared.event.Event.TheVariants as event;
ghost use Rattle.site_model.specs.declared.note_kind.NoteKind.TheVariants as kind;
ghost use Rattle.site_model.specs.declared.outcome.Outcome.TheVariants as outcome;
ghost use Rattle.site_model.specs.declared.state.State.TheVariants as state;
ghost use Rattle.run_meaning.specs.View.{changes_back, flapping_at, flapping_value, view_of, weight_from};
ghost use Rattle.run_examples.specs.Sites.{host, logs_behind, logs_of, notification, service, site, swinging};
ghost use Rattle.run_examples.specs.Turns.{passive, swings, with_event};
ghost use Rattle.run_examples.specs.Rows.{decided, on_one, row, rows_of, sent};
ghost use Rattle.run_examples.specs.Histories.{again, results, swung};

/// A service that changes at each result begins to flap at the seventh, and ends at the twenty-third.
pub fn flapping_service()
    ensures begins { map rows_of (drop 6 (logs_of (site (swinging 1)) (swings 8 1))) ≡
        (row 70 state.Critical true 1 (on_one kind.Problem outcome.Flapping ∷ sent kind.FlappingStart) ∷ [])
        ∷ (row 80 state.Okay true 1 (on_one kind.Recovery outcome.Flapping ∷ []) ∷ [])
        ∷ [] }
    ensures ends { map rows_of (drop 21 (logs_of (site (swinging 1)) (swings 23 1))) ≡
        (row 220 state.Okay true 1 [] ∷ [])
        ∷ (row 230 state.Okay true 1 (sent kind.FlappingEnd) ∷ [])
        ∷ [] }
{}

/// Its values: 28.5 percent after the sixth result, 33.9 after the seventh, 25.5 after the twenty-second, 21 after the next.
pub fn flapping_values()
    ensures sixth { flapping_value (swinging 1) (swung 6) ≡ 28500 }
    ensures seventh { flapping_value (swinging 1) (swung 7) ≡ 33900 }
    ensures twenty_second { flapping_value (swinging 1) (swung 22) ≡ 25500 }
    ensures twenty_third { flapping_value (swinging 1) (swung 23) ≡ 21000 }
{}

/// A value that is a threshold itself changes nothing; where the low one is above the high one, the high one counts.
pub fn thresholds()
    ensures high_value { 50 * weight_from 1 (false ∷ false ∷ false ∷ false ∷ false ∷ true ∷ false ∷ true ∷ true ∷ false ∷ true ∷ true ∷ false ∷ true ∷ []) ≡ 30000 }
    ensures at_high { flapping_at (swinging 1) 30000 false ≡ false }
    ensures above_high { flapping_at (swinging 1) 30001 false ≡ true }
    ensures low_value { 50 * weight_from 1 (false ∷ false ∷ false ∷ false ∷ false ∷ false ∷ false ∷ true ∷ true ∷ true ∷ true ∷ true ∷ []) ≡ 25000 }
    ensures at_low { flapping_at (swinging 1) 25000 true ≡ true }
    ensures below_low { flapping_at (swinging 1) 24999 true ≡ false }
    ensures crossed { flapping_at (record (swinging 1) { low = 40000 }) 35000 false ≡ true }
    ensures never_ends { flapping_at (record (swinging 1) { low = 0 }) 0 true ≡ true }
{}

/// The first result is no change; the twentieth from the end is compared with the one before it. The statuses 0 and 1 of a
/// host are one state.
pub fn slots()
    ensures first { changes_back (service 1) (reverse (results (2 ∷ []))) ≡ false ∷ [] }
    ensures last { flapping_value (service 1) (reverse (results (2 ∷ again 20 0))) ≡ 4000 }
    ensures past { flapping_value (service 1) (reverse (results (2 ∷ again 21 0))) ≡ 0 }
    ensures hosts { changes_back host (reverse (results (0 ∷ 1 ∷ 2 ∷ 3 ∷ []))) ≡ false ∷ true ∷ false ∷ false ∷ [] }
{}

/// Where flapping is turned on, the entries that stand count.
pub fn turned_on()
    ensures on { (view_of (swinging 1) (reverse (swung 7))).flapping ≡ true }
    ensures off { (view_of (service 1) (reverse (swung 7))).flapping ≡ false }
{}

/// Decisions go notification by notification, and within one in the order of kinds.
pub fn two_notifications()
    ensures { map decided (logs_behind ([] ∷ reverse (swung 6) ∷ []) (record (site (swinging 1)) { notifies = notification ∷ notification ∷ [] }) (passive 70 2 ∷ [])) ≡
        ((on_one kind.Problem outcome.Flapping ∷ on_one kind.FlappingStart (outcome.Sent (0 ∷ []))
        ∷ record (on_one kind.Problem outcome.Flapping) { notification = 1 } ∷ record (on_one kind.FlappingStart (outcome.Sent (0 ∷ []))) { notification = 1 } ∷ []) ∷ []) ∷ [] }
{}

/// A downtime holds back what flapping would, and its beginning too.
pub fn flapping_in_a_downtime()
    ensures { map decided (logs_behind ([] ∷ reverse (swung 6) ∷ []) (site (swinging 1)) (with_event 60 (event.Down 60 100 true 0) ∷ passive 70 2 ∷ [])) ≡
        ([] ∷ []) ∷ ((on_one kind.Problem (outcome.Downtime 7) ∷ on_one kind.FlappingStart (outcome.Downtime 7) ∷ []) ∷ []) ∷ [] }
{}
