// Laws of the definitions.
ghost use Rattle.std.specs.Prelude.{◌≡◌, ◌≢◌, ◌<◌, ◌≤◌, ◌+◌, ℕ, [], ◌∷◌, ◌++◌, List, map, length, slice_get, nat_eq, is_some, Some, true, false, AllPairs, IsPermutation};
ghost use Rattle.std.specs.List.{flat_map, list_any};
ghost use Rattle.site_model.specs.PlainSite.{PlainCheck};
ghost use Rattle.run_meaning.specs.View.{view_of, best_state};
ghost use Rattle.run_meaning.specs.Turns.{Asked, ReadTurn, Histories, Line, Outstanding, Reported, from_on, of_index};
ghost use Rattle.run_meaning.specs.Acts.{Rules};
ghost use Rattle.run_meaning.specs.Rounds.{IsRound};
ghost use Rattle.run_meaning.specs.Dealing.{Refusal, Taken, checkable_of, dealt, line_events, line_refusals, refused_report, report_refusals, still, taken_reports};
ghost use Rattle.run_meaning.specs.Runs.{Basis, TurnLog, Stage, IsRun, IsRunFrom, IsRunInTwo, IsTurn, events_of, refusals_of, reports_of, stage_after, stage_by};
ghost use Rattle.run_meaning.specs.Shares.{dealt_on, done_in, kept_of, orders_refused};
ghost use Rattle.run_meaning.specs.Alone.{Move, one_by_one, taken_by, round_of, alone, run_alone, AreOnSite, AreMovesOnSite, IsOnSite};
ghost use Rattle.run_meaning.specs.TwoCallers.{both, checked, events, falling, frozen, nothing, on, on_service, one_before, outstanding, report_taken, reported, round, rules, stale, twice};

/// Before its first entry a checkable is well, HARD and at its first attempt.
pub fn view_of_nothing()
    ensures { (c : PlainCheck) → ((view_of c []).state ≡ best_state c) × ((view_of c []).attempt ≡ 1) × ((view_of c []).has_result ≡ false) }
{}

/// One caller's events have no round but the one in which they are taken one after the other, and where each is on a
/// checkable of the site, that is a round of them.
pub fn rounds_of_one_caller_are_one()
    ensures only { (r : Rules) (moment : ℕ) (before : Histories) (events : List Asked) (round : Histories) → IsRound r moment before (events ∷ []) round → round ≡ alone r moment before events }
    ensures is { (r : Rules) (moment : ℕ) (before : Histories) (events : List Asked) → AreOnSite r.site events → IsRound r moment before (events ∷ []) (alone r moment before events) }
{}

/// Events that callers take one after the other, in whatever order, make a round of what each of them takes.
pub fn moves_one_by_one_make_a_round()
    ensures { (r : Rules) (moment : ℕ) (before : Histories) (callers : ℕ) (moves : List Move) → ((i : ℕ) (m : Move) → slice_get moves i ≡ Some m → m.caller < callers) → AreMovesOnSite r.site moves → IsRound r moment before (map (λ k. taken_by k moves) (from_on 0 callers)) (round_of r moment before moves) }
{}

/// One caller takes all of a turn: its lines, then its reports, then its ticks.
#[tactic(auto, using(crate::proofs::Dealt::dealt_to_one))]
pub fn dealing_to_one_caller()
    ensures { (lines : List Asked) (reports : List Taken) (ticks : List Asked) → dealt 1 lines reports ticks ≡ (lines ++ (map (λ t. t.asked) reports ++ ticks)) ∷ [] }
{}

/// With one caller a run has one log, which is a function of what it stands on, of its first stage and of what its turns
/// bring: no other is a log of it, and where all that its turns bring is on checkables of the site, that is one.
pub fn a_log_is_one_function()
    ensures only { (b : Basis) (st : Stage) (ts : List ReadTurn) (ls : List TurnLog) → IsRun b 1 st ts ls → ls ≡ run_alone b st ts }
    ensures is { (b : Basis) (st : Stage) (ts : List ReadTurn) → IsOnSite b st ts → IsRun b 1 st ts (run_alone b st ts) }
{}

/// A run can be cut, however many callers there are: the logs of two lists of turns are the logs of a run over the first,
/// and then those of one over the second from the stage to which the first came. One caller's logs are so cut too, as
/// functions.
pub fn runs_can_be_cut()
    ensures cut { (b : Basis) (callers : ℕ) (st : Stage) (ts us : List ReadTurn) (ls : List TurnLog) → IsRunFrom b callers st (ts ++ us) ls → IsRunInTwo b callers st ts us ls }
    ensures joined { (b : Basis) (callers : ℕ) (st : Stage) (ts us : List ReadTurn) (ms ns : List TurnLog) → IsRunFrom b callers st ts ms → IsRunFrom b callers (stage_by b st ts ms) us ns → IsRunFrom b callers st (ts ++ us) (ms ++ ns) }
    ensures stage { (b : Basis) (callers : ℕ) (st : Stage) (ts us : List ReadTurn) (ms ns : List TurnLog) → IsRunFrom b callers st ts ms → stage_by b st (ts ++ us) (ms ++ ns) ≡ stage_by b (stage_by b st ts ms) us ns }
    ensures alone { (b : Basis) (st : Stage) (ts us : List ReadTurn) → run_alone b st (ts ++ us) ≡ run_alone b st ts ++ run_alone b (stage_by b st ts (run_alone b st ts)) us }
{}

/// However many callers there are, each event goes to one of them, once: what all of them take together is what there is,
/// in another order.
pub fn each_event_goes_to_one_caller()
    ensures { (callers : ℕ) (lines : List Asked) (reports : List Taken) (ticks : List Asked) → 1 ≤ callers → IsPermutation (lines ++ (map (λ t. t.asked) reports ++ ticks)) (flat_map (λ events. events) (dealt callers lines reports ticks)) }
{}

/// Each report is taken or refused, and of an order at most one is taken: one, if it is outstanding and has a report.
pub fn each_report_is_taken_or_refused()
    ensures one { (os : List Outstanding) (rs : List Reported) → IsPermutation (map (λ r. r.order) rs) (map (λ t. t.order) (taken_reports os rs) ++ orders_refused (report_refusals os rs)) }
    ensures outstanding { (os : List Outstanding) (rs : List Reported) (o : ℕ) → is_some (checkable_of o os) ≡ true → list_any (nat_eq o) (map (λ r. r.order) rs) ≡ true → list_any (nat_eq o) (map (λ t. t.order) (taken_reports os rs)) ≡ true }
    ensures once { (os : List Outstanding) (rs : List Reported) → AllPairs (λ x y. x ≢ y) (map (λ t. t.order) (taken_reports os rs)) }
{}

/// Each line is an event or one refusal.
pub fn each_line_is_an_event_or_refused()
    ensures { (n : ℕ) (ls : List Line) → length (line_events ls) + length (line_refusals n ls) ≡ length ls }
{}

/// A turn without its refused lines and reports deals the same events, and leaves the same orders outstanding. So its log is
/// the same but for the refusals, and the run goes on from the same stage.
pub fn what_is_refused_changes_nothing()
    ensures events { (b : Basis) (callers : ℕ) (st : Stage) (t : ReadTurn) (moment : ℕ) → events_of b callers st (kept_of st t) moment ≡ events_of b callers st t moment }
    ensures outstanding { (st : Stage) (t : ReadTurn) → still (reports_of st (kept_of st t)) st.plans.outstanding ≡ still (reports_of st t) st.plans.outstanding }
    ensures log { (b : Basis) (callers : ℕ) (st : Stage) (t : ReadTurn) (l : TurnLog) → IsTurn b callers st t l → IsTurn b callers st (kept_of st t) (record l { refusals = refusals_of b st (kept_of st t) l.moment }) }
    ensures stage { (b : Basis) (st : Stage) (t : ReadTurn) (l : TurnLog) (rs : List Refusal) → stage_after b st (kept_of st t) (record l { refusals = rs }) ≡ stage_after b st t l }
{}

/// In every round the entries of a checkable are the events dealt on it, each once, by the caller to which it was dealt.
pub fn entries_are_the_events_dealt()
    ensures { (r : Rules) (moment : ℕ) (before : Histories) (events : List (List Asked)) (round : Histories) → IsRound r moment before events round → (c : ℕ) → IsPermutation (map done_in (of_index c round)) (dealt_on c 0 events) }
{}

/// Callers that act one after another make a round, however many they are.
pub fn callers_one_after_another_make_a_round()
    ensures { (r : Rules) (moment : ℕ) (before : Histories) (events : List (List Asked)) → ((k : ℕ) → AreOnSite r.site (of_index k events)) → IsRound r moment before events (round_of r moment before (one_by_one 0 events)) }
{}

/// Two callers, of which the first takes a result of a host and the second one of its service: the service's entry may
/// have seen the host's or not. Where one caller takes both, it has seen its own; what a caller sees never falls, and is
/// neither more than stands nor less than stood before.
pub fn two_callers_make_rounds()
    ensures rounds { (n : ℕ) → n ≤ 1 → IsRound rules 10 nothing events (round n) }
    ensures frozen { IsRound rules 10 nothing both frozen → ⊥ }
    ensures falling { IsRound rules 10 nothing twice falling → ⊥ }
    ensures beyond { IsRound rules 10 nothing events (round 2) → ⊥ }
    ensures stale { IsRound rules 10 one_before on_service stale → ⊥ }
{}

/// Two callers share a turn's events: lines go to the first, reports by their orders, ticks by their checkables. Of two
/// reports of an order the first is taken.
pub fn two_callers_share_a_turn()
    ensures deals { dealt 2 (on 7 ∷ on 8 ∷ []) (report_taken 1 5 ∷ report_taken 2 6 ∷ []) (on 0 ∷ on 3 ∷ []) ≡ (on 7 ∷ on 8 ∷ checked 6 ∷ on 0 ∷ []) ∷ (checked 5 ∷ on 3 ∷ []) ∷ [] }
    ensures takes { taken_reports (outstanding 1 5 ∷ outstanding 2 6 ∷ []) (reported 2 ∷ reported 2 ∷ reported 3 ∷ []) ≡ report_taken 2 6 ∷ [] }
    ensures refuses { report_refusals (outstanding 1 5 ∷ outstanding 2 6 ∷ []) (reported 2 ∷ reported 2 ∷ reported 3 ∷ []) ≡ refused_report 2 ∷ refused_report 3 ∷ [] }
    ensures leaves { still (reported 2 ∷ reported 2 ∷ reported 3 ∷ []) (outstanding 1 5 ∷ outstanding 2 6 ∷ []) ≡ outstanding 1 5 ∷ [] }
{}
