// Which checks are ordered.
ghost use Rattle.std.specs.Prelude.{◌≡◌, [], ◌∷◌, map, drop, Some, None, true, false, codes};
ghost use Rattle.site_model.specs.declared.event.Event.TheVariants as event;
ghost use Rattle.run_meaning.specs.Turns.{missing, of_index, words};
ghost use Rattle.run_meaning.specs.Dealing.{refused_report};
ghost use Rattle.run_examples.specs.Sites.{service};
ghost use Rattle.run_examples.specs.Turns.{empty, ended, of_host, on, report, of_status, turn, with_event, with_events, with_reports};
ghost use Rattle.run_examples.specs.Rows.{order, orders_of, statuses};
ghost use Rattle.run_examples.specs.Histories.{at, results};
ghost use Rattle.run_examples.specs.Checks.{checked, checks_behind, checks_of, four, free_service, held_service, logs_without, one_service, three};

/// All that are due are ordered by their index, if they are due since the same moment. The order whose macro is missing
/// is reported by the next turn itself, and so is checked again only after its interval; a report of it from outside is
/// refused.
pub fn first_orders()
    ensures orders { map orders_of (logs_without (codes "q") four (empty 10 ∷ empty 20 ∷ [])) ≡ (order 1 1 ∷ order 2 2 ∷ order 3 3 ∷ []) ∷ [] ∷ [] }
    ensures commands { map (λ l. map (λ o. o.command) l.orders) (logs_without (codes "q") four (empty 10 ∷ [])) ≡ (missing (codes "q") ∷ words ((5 ∷ []) ∷ []) ∷ words ((5 ∷ []) ∷ []) ∷ []) ∷ [] }
    ensures entries { map statuses (logs_without (codes "q") four (empty 10 ∷ empty 20 ∷ [])) ≡
        ([] ∷ [] ∷ [] ∷ [] ∷ []) ∷ ([] ∷ (event.Result 3 false (codes "Macro 'q' is missing") [] ∷ []) ∷ [] ∷ [] ∷ []) ∷ [] }
    ensures refusals { map (λ l. l.refusals) (logs_without (codes "q") four (empty 10 ∷ report 20 1 ∷ [])) ≡ [] ∷ (refused_report 1 ∷ []) ∷ [] }
{}

/// A missing macro's report is read as a plugin's output is: what stands behind a bar in its name is performance data.
pub fn macro_with_a_bar()
    ensures { map (λ l. of_index 1 (statuses l)) (logs_without (codes "a|b") four (empty 10 ∷ empty 20 ∷ [])) ≡
        [] ∷ (event.Result 3 false (codes "Macro 'a") (codes "b' is missing") ∷ []) ∷ [] }
{}

/// No more orders are outstanding than may be: the next ones come once reports were taken.
pub fn few_orders()
    ensures orders { map orders_of (checks_of (three 2) (empty 10 ∷ empty 11 ∷ report 12 1 ∷ [])) ≡ (order 1 0 ∷ order 2 1 ∷ []) ∷ [] ∷ (order 3 2 ∷ []) ∷ [] }
    ensures entries { map statuses (drop 2 (checks_of (three 2) (empty 10 ∷ empty 11 ∷ report 12 1 ∷ []))) ≡ ((event.Result 0 false [] [] ∷ []) ∷ [] ∷ [] ∷ []) ∷ [] }
{}

/// The due ones go by their moments before they go by their indices.
pub fn earliest_first()
    ensures { map orders_of (checks_of (three 1) (empty 10 ∷ record (turn 20 (on 1 (event.Check 5 false) ∷ [])) { reports = ended 1 0 ∷ [] } ∷ [])) ≡ (order 1 0 ∷ []) ∷ (order 2 2 ∷ []) ∷ [] }
{}

/// A forced check is ordered though active checks are off, at a moment that may be past, and its order has one report. A
/// check that isn't forced is held back. A moment never falls.
pub fn forced_check()
    ensures orders { map orders_of (checks_of (one_service (service 3)) (empty 10 ∷ with_event 20 (event.Check 15 true) ∷ with_reports 5 (ended 1 0 ∷ ended 1 2 ∷ ended 2 0 ∷ []) ∷ empty 30 ∷ [])) ≡ [] ∷ (order 1 1 ∷ []) ∷ [] ∷ [] ∷ [] }
    ensures moments { map (λ l. l.moment) (checks_of (one_service (service 3)) (empty 10 ∷ with_event 20 (event.Check 15 true) ∷ with_reports 5 (ended 1 0 ∷ ended 1 2 ∷ ended 2 0 ∷ []) ∷ empty 30 ∷ [])) ≡ 10 ∷ 20 ∷ 20 ∷ 30 ∷ [] }
    ensures refusals { map (λ l. l.refusals) (checks_of (one_service (service 3)) (empty 10 ∷ with_event 20 (event.Check 15 true) ∷ with_reports 5 (ended 1 0 ∷ ended 1 2 ∷ ended 2 0 ∷ []) ∷ empty 30 ∷ [])) ≡
        [] ∷ [] ∷ (refused_report 1 ∷ refused_report 2 ∷ []) ∷ [] ∷ [] }
    ensures entries { map (λ l. of_index 1 (statuses l)) (checks_of (one_service (service 3)) (empty 10 ∷ with_event 20 (event.Check 15 true) ∷ with_reports 5 (ended 1 0 ∷ ended 1 2 ∷ ended 2 0 ∷ []) ∷ empty 30 ∷ [])) ≡
        [] ∷ (event.Check 15 true ∷ []) ∷ (event.Result 0 false [] [] ∷ []) ∷ [] ∷ [] }
    ensures unforced { map orders_of (checks_of (one_service (service 3)) (empty 10 ∷ with_event 20 (event.Check 15 false) ∷ [])) ≡ [] ∷ [] ∷ [] }
    ensures all_refused { map (λ l. l.refusals) (checks_of (one_service (service 3)) (empty 10 ∷ with_event 20 (event.Check 15 false) ∷ with_reports 5 (ended 1 0 ∷ ended 1 2 ∷ ended 2 0 ∷ []) ∷ [])) ≡
        [] ∷ [] ∷ (refused_report 1 ∷ refused_report 1 ∷ refused_report 2 ∷ []) ∷ [] }
{}

/// A passive result moves a forced check, which stays forced.
pub fn moved_force()
    ensures { map orders_of (checks_of (one_service (service 3)) (with_events 5 (event.Check 500 true ∷ of_status 0 ∷ []) ∷ empty 304 ∷ empty 305 ∷ [])) ≡ [] ∷ [] ∷ (order 1 1 ∷ []) ∷ [] }
{}

/// A passive result beside an outstanding order leaves the schedule as it is, and a second report of an order is refused.
pub fn a_report_and_a_passive_result()
    ensures entries { map (λ l. of_index 3 (statuses l)) (checks_of four (empty 10 ∷ record (turn 20 (on 3 (of_status 2) ∷ [])) { reports = ended 3 0 ∷ [] } ∷ report 30 3 ∷ [])) ≡
        [] ∷ (event.Result 2 true [] [] ∷ event.Result 0 false [] [] ∷ []) ∷ [] ∷ [] }
    ensures refusals { map (λ l. l.refusals) (checks_of four (empty 10 ∷ record (turn 20 (on 3 (of_status 2) ∷ [])) { reports = ended 3 0 ∷ [] } ∷ report 30 3 ∷ [])) ≡ [] ∷ [] ∷ (refused_report 3 ∷ []) ∷ [] }
    ensures again { map orders_of (drop 2 (checks_of four (empty 10 ∷ record (turn 20 (on 3 (of_status 2) ∷ [])) { reports = ended 3 0 ∷ [] } ∷ empty 319 ∷ empty 320 ∷ []))) ≡ [] ∷ (order 4 3 ∷ []) ∷ [] }
{}

/// A check that is asked for while an order is outstanding doesn't count, also where the order's report comes in the same
/// turn: lines come first.
pub fn check_beside_an_order()
    ensures { map orders_of (drop 1 (checks_of four (empty 10 ∷ record (turn 20 (on 3 (event.Check 25 true) ∷ [])) { reports = ended 3 0 ∷ [] } ∷ empty 319 ∷ empty 320 ∷ []))) ≡ [] ∷ [] ∷ (order 4 3 ∷ []) ∷ [] }
{}

/// A SOFT problem is checked again after the retry interval. Given results count for what is SOFT.
pub fn retries()
    ensures soft { map orders_of (checks_of (one_service (checked (Some 0))) (empty 10 ∷ with_reports 20 (ended 1 2 ∷ []) ∷ empty 79 ∷ empty 80 ∷ [])) ≡ (order 1 1 ∷ []) ∷ [] ∷ [] ∷ (order 2 1 ∷ []) ∷ [] }
    ensures given { map orders_of (checks_behind ([] ∷ results (2 ∷ 2 ∷ []) ∷ []) (one_service (checked (Some 0))) (empty 30 ∷ with_reports 40 (ended 1 2 ∷ []) ∷ empty 339 ∷ empty 340 ∷ [])) ≡ (order 1 1 ∷ []) ∷ [] ∷ [] ∷ (order 2 1 ∷ []) ∷ [] }
    ensures given_checks { map orders_of (checks_behind ([] ∷ (at 5 (event.Check 500 true) ∷ []) ∷ []) (one_service (checked (Some 0))) (empty 10 ∷ [])) ≡ (order 1 1 ∷ []) ∷ [] }
    ensures given_force { map orders_of (checks_behind ([] ∷ (at 5 (event.Check 500 true) ∷ []) ∷ []) (one_service (service 3)) (empty 10 ∷ [])) ≡ [] ∷ [] }
{}

/// Whether a check is held back goes by what stands after the round.
pub fn held_checks()
    ensures free { map orders_of (checks_of free_service (of_host 10 2 ∷ [])) ≡ (order 1 1 ∷ []) ∷ [] }
    ensures held { map orders_of (checks_of held_service (of_host 10 2 ∷ empty 309 ∷ [])) ≡ [] ∷ [] ∷ [] }
    ensures let_through { map orders_of (checks_of held_service (of_host 10 2 ∷ of_host 309 0 ∷ empty 310 ∷ [])) ≡ [] ∷ [] ∷ (order 1 1 ∷ []) ∷ [] }
    ensures switched_off { map orders_of (checks_of free_service (with_event 10 (event.Checks false) ∷ [])) ≡ [] ∷ [] }
{}

/// Where as many orders are outstanding as may be, nothing is skipped either.
pub fn no_skip_beyond_the_limit()
    ensures { map orders_of (checks_of (three 1) (turn 10 (on 1 (event.Checks false) ∷ on 2 (event.Checks false) ∷ []) ∷ report 20 1 ∷ turn 310 (on 1 (event.Checks true) ∷ []) ∷ empty 320 ∷ [])) ≡ (order 1 0 ∷ []) ∷ [] ∷ [] ∷ (order 2 0 ∷ []) ∷ [] }
{}

/// The greatest moment is due at once.
pub fn greatest_moment()
    ensures { map orders_of (checks_of (three 512) (empty 99999999999 ∷ report 99999999999 1 ∷ [])) ≡ (order 1 0 ∷ order 2 1 ∷ order 3 2 ∷ []) ∷ (order 4 0 ∷ []) ∷ [] }
{}
