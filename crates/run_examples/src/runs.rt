// Runs as a whole: given histories, what is fed, and what is dealt.
ghost use Rattle.std.specs.Prelude.{◌≡◌, [], ◌∷◌, map, true, false, codes};
ghost use Rattle.site_model.specs.declared.note_kind.NoteKind.TheVariants as kind;
ghost use Rattle.site_model.specs.declared.outcome.Outcome.TheVariants as outcome;
ghost use Rattle.site_model.specs.declared.state.State.TheVariants as state;
ghost use Rattle.run_meaning.specs.Turns.{faulty, of_index};
ghost use Rattle.run_meaning.specs.Dealing.{refused_line};
ghost use Rattle.run_examples.specs.Sites.{logs_behind, logs_fed, logs_of, service, site};
ghost use Rattle.run_examples.specs.Turns.{empty, on, passive, of_status, turn};
ghost use Rattle.run_examples.specs.Rows.{on_one, row, rows_of, sent};
ghost use Rattle.run_examples.specs.Histories.{results};

/// A run behind given histories goes on from them: its first moment isn't below theirs, and its entries are numbered on.
pub fn given_histories()
    ensures rows { map rows_of (logs_behind ([] ∷ results (2 ∷ []) ∷ []) (site (service 3)) (passive 20 2 ∷ [])) ≡ (row 20 state.Critical false 2 [] ∷ []) ∷ [] }
    ensures numbers { map (λ l. map (λ e. e.number) (of_index 1 l.round)) (logs_behind ([] ∷ results (2 ∷ []) ∷ []) (site (service 3)) (passive 20 2 ∷ [])) ≡ (2 ∷ []) ∷ [] }
    ensures moments { map (λ l. l.moment) (logs_behind ([] ∷ results (2 ∷ []) ∷ []) (site (service 3)) (empty 5 ∷ empty 12 ∷ [])) ≡ 10 ∷ 12 ∷ [] }
    ensures turns { map (λ l. l.number) (logs_behind ([] ∷ results (2 ∷ []) ∷ []) (site (service 3)) (empty 5 ∷ empty 12 ∷ [])) ≡ 1 ∷ 2 ∷ [] }
{}

/// What is fed stands before a turn's own lines, and counts in their numbers.
pub fn fed_lines()
    ensures refusals { map (λ l. l.refusals) (logs_fed (faulty (codes "X") ∷ []) (site (service 3)) (turn 10 (on 1 (of_status 2) ∷ faulty (codes "Y") ∷ []) ∷ [])) ≡ (refused_line 1 (codes "X") ∷ refused_line 3 (codes "Y") ∷ []) ∷ [] }
    ensures entries { map rows_of (logs_fed (on 1 (of_status 2) ∷ []) (site (service 3)) (empty 10 ∷ empty 20 ∷ [])) ≡
        (row 10 state.Critical false 1 [] ∷ []) ∷ (row 20 state.Critical false 2 [] ∷ []) ∷ [] }
{}

/// Ticks go by what stood before a turn: a result in it comes first, and stops none.
pub fn ticks_behind_lines()
    ensures { map rows_of (logs_of (site (service 1)) (passive 10 2 ∷ passive 69 2 ∷ passive 129 0 ∷ [])) ≡
        (row 10 state.Critical true 1 (sent kind.Problem) ∷ [])
        ∷ (row 69 state.Critical true 1 (on_one kind.Problem outcome.Repeat ∷ []) ∷ [])
        ∷ (row 129 state.Okay true 1 (sent kind.Recovery) ∷ row 129 state.Okay true 1 [] ∷ [])
        ∷ [] }
{}
