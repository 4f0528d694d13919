// Results, acknowledgements and switches, and what they show.
ghost use Rattle.std.specs.Prelude.{◌≡◌, [], ◌∷◌, map, true, false};
ghost use Rattle.site_model.specs.declared.ack.Ack.TheVariants as ack;
ghost use Rattle.site_model.specs.declared.event.Event.TheVariants as event;
ghost use Rattle.site_model.specs.declared.note_kind.NoteKind.TheVariants as kind;
ghost use Rattle.site_model.specs.declared.state.State.TheVariants as state;
ghost use Rattle.run_meaning.specs.View.{view_of};
ghost use Rattle.run_examples.specs.Sites.{logs_of, service, site};
ghost use Rattle.run_examples.specs.Turns.{empty, of_host, passive, of_status, with_event};
ghost use Rattle.run_examples.specs.Rows.{row, rows_of, rows_on, sent, taken_of};
ghost use Rattle.run_examples.specs.Histories.{at, results, void};

/// A service is a HARD problem at its third result, and is told then; so is its end.
pub fn soft_to_hard()
    ensures { map rows_of (logs_of (site (service 3)) (passive 10 2 ∷ passive 20 2 ∷ passive 30 2 ∷ passive 40 0 ∷ [])) ≡
        (row 10 state.Critical false 1 [] ∷ [])
        ∷ (row 20 state.Critical false 2 [] ∷ [])
        ∷ (row 30 state.Critical true 3 (sent kind.Problem) ∷ [])
        ∷ (row 40 state.Okay true 1 (sent kind.Recovery) ∷ [])
        ∷ [] }
{}

/// A problem that ends while it is SOFT tells nothing; one that is HARD at once tells each state.
pub fn soft_recovery()
    ensures soft { map rows_of (logs_of (site (service 3)) (passive 10 2 ∷ passive 20 0 ∷ [])) ≡
        (row 10 state.Critical false 1 [] ∷ []) ∷ (row 20 state.Okay true 1 [] ∷ []) ∷ [] }
    ensures hard { map rows_of (logs_of (site (service 1)) (passive 10 1 ∷ passive 20 2 ∷ [])) ≡
        (row 10 state.Warning true 1 (sent kind.Problem) ∷ []) ∷ (row 20 state.Critical true 1 (sent kind.Problem) ∷ []) ∷ [] }
{}

/// A host that is down for sure gets a tick 60 seconds after its last entry.
pub fn host_of_three_attempts()
    ensures { map (rows_on 0) (logs_of (site (service 1)) (of_host 10 2 ∷ of_host 20 2 ∷ of_host 30 2 ∷ empty 89 ∷ empty 90 ∷ [])) ≡
        (row 10 state.Down false 1 [] ∷ [])
        ∷ (row 20 state.Down false 2 [] ∷ [])
        ∷ (row 30 state.Down true 3 [] ∷ [])
        ∷ []
        ∷ (row 90 state.Down true 3 [] ∷ [])
        ∷ [] }
{}

/// The attempt stops at the most that are asked for, also of a volatile checkable, which is HARD at once.
pub fn attempts()
    ensures most { (view_of (service 3) (results (2 ∷ 2 ∷ 2 ∷ 2 ∷ []))).attempt ≡ 3 }
    ensures anew { (view_of (service 3) (results (2 ∷ 2 ∷ 0 ∷ 2 ∷ []))).attempt ≡ 1 }
    ensures volatile { (view_of (record (service 3) { volatile = true }) (results (2 ∷ 2 ∷ []))).attempt ≡ 2 }
    ensures hard { (view_of (record (service 3) { volatile = true }) (results (2 ∷ 2 ∷ []))).hard ≡ true }
{}

/// The change is that of the result which made the problem HARD or changed its state, and stays after its end.
pub fn changes()
    ensures soft { (view_of (service 3) (results (2 ∷ 2 ∷ []))).change ≡ 0 }
    ensures hard { (view_of (service 3) (results (2 ∷ 2 ∷ 2 ∷ []))).change ≡ 30 }
    ensures again { (view_of (service 3) (results (2 ∷ 2 ∷ 2 ∷ 2 ∷ []))).change ≡ 30 }
    ensures other { (view_of (service 3) (results (2 ∷ 2 ∷ 2 ∷ 1 ∷ []))).change ≡ 40 }
    ensures ended { (view_of (service 3) (results (2 ∷ 2 ∷ 2 ∷ 0 ∷ []))).change ≡ 30 }
{}

/// A normal acknowledgement lasts from SOFT to HARD in one state, and ends when the state changes.
pub fn normal_acknowledgement()
    ensures lasts { (view_of (service 3) (at 10 (of_status 2) ∷ at 11 (event.Ack false true) ∷ at 20 (of_status 2) ∷ at 30 (of_status 2) ∷ [])).ack ≡ ack.Normal }
    ensures changed { (view_of (service 3) (at 10 (of_status 2) ∷ at 11 (event.Ack false true) ∷ at 20 (of_status 2) ∷ at 30 (of_status 1) ∷ [])).ack ≡ ack.Off }
    ensures back { (view_of (service 3) (at 10 (of_status 2) ∷ at 11 (event.Ack false true) ∷ at 20 (of_status 1) ∷ at 30 (of_status 2) ∷ [])).ack ≡ ack.Off }
{}

/// A sticky one lasts until the problem ends, unless a normal one comes after it.
pub fn sticky_acknowledgement()
    ensures lasts { (view_of (service 3) (at 10 (of_status 2) ∷ at 11 (event.Ack true true) ∷ at 20 (of_status 1) ∷ [])).ack ≡ ack.Sticky }
    ensures ended { (view_of (service 3) (at 10 (of_status 2) ∷ at 11 (event.Ack true true) ∷ at 20 (of_status 0) ∷ [])).ack ≡ ack.Off }
    ensures replaced { (view_of (service 3) (at 10 (of_status 2) ∷ at 11 (event.Ack true true) ∷ at 12 (event.Ack false true) ∷ at 20 (of_status 1) ∷ [])).ack ≡ ack.Off }
{}

/// Of given entries a taken acknowledgement counts also without a problem, and a void one or a void end never.
pub fn given_acknowledgements()
    ensures normal { (view_of (service 3) (at 10 (event.Ack false true) ∷ at 20 (of_status 2) ∷ [])).ack ≡ ack.Off }
    ensures sticky { (view_of (service 3) (at 10 (event.Ack true true) ∷ at 20 (of_status 2) ∷ [])).ack ≡ ack.Sticky }
    ensures void { (view_of (service 3) (at 10 (of_status 2) ∷ void 20 (event.Ack true true) ∷ [])).ack ≡ ack.Off }
    ensures kept { (view_of (service 3) (at 10 (of_status 2) ∷ at 20 (event.Ack true true) ∷ void 30 event.Unack ∷ [])).ack ≡ ack.Sticky }
    ensures taken_back { (view_of (service 3) (at 10 (of_status 2) ∷ at 20 (event.Ack true true) ∷ at 30 event.Unack ∷ [])).ack ≡ ack.Off }
{}

/// An acknowledgement without a problem is void, and so is the end of one that isn't in force.
pub fn void_acknowledgements()
    ensures rows { map rows_of (logs_of (site (service 3)) (with_event 10 (event.Ack false false) ∷ [])) ≡ (row 10 state.Okay true 1 [] ∷ []) ∷ [] }
    ensures taken { map taken_of (logs_of (site (service 3)) (with_event 10 (event.Ack false false) ∷ with_event 20 event.Unack ∷ passive 30 2 ∷ with_event 40 (event.Ack false false) ∷ with_event 50 event.Unack ∷ [])) ≡
        (false ∷ []) ∷ (false ∷ []) ∷ (true ∷ []) ∷ (true ∷ []) ∷ (true ∷ []) ∷ [] }
{}

/// The last switch counts where the attribute is on, of given entries also a void one; what is set off stays off.
pub fn switches()
    ensures off { (view_of (record (service 3) { active = true }) (at 10 (event.Checks false) ∷ [])).checks_on ≡ false }
    ensures on { (view_of (record (service 3) { active = true }) (at 10 (event.Checks false) ∷ at 20 (event.Checks true) ∷ [])).checks_on ≡ true }
    ensures void { (view_of (record (service 3) { active = true }) (void 10 (event.Checks false) ∷ [])).checks_on ≡ false }
    ensures set_off { (view_of (service 3) (at 10 (event.Checks true) ∷ [])).checks_on ≡ false }
    ensures notes { (view_of (service 3) (at 10 (event.Notes false) ∷ [])).notes_on ≡ false }
    ensures others { (view_of (service 3) (at 10 (event.Checks false) ∷ [])).notes_on ≡ true }
    ensures notes_set_off { (view_of (record (service 3) { notify = false }) (at 10 (event.Notes true) ∷ [])).notes_on ≡ false }
{}
