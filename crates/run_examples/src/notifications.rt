// What comes of notifications.
ghost use Rattle.std.specs.Prelude.{◌≡◌, [], ◌∷◌, map, drop, Some, None, true, false};
ghost use Rattle.site_model.specs.declared.event.Event.TheVariants as event;
ghost use Rattle.site_model.specs.declared.note_kind.NoteKind.TheVariants as kind;
ghost use Rattle.site_model.specs.declared.outcome.Outcome.TheVariants as outcome;
ghost use Rattle.site_model.specs.declared.state.State.TheVariants as state;
ghost use Rattle.run_examples.specs.Sites.{logs_behind, logs_of, notification, service, site, site_with, user};
ghost use Rattle.run_examples.specs.Turns.{empty, of_host, passive, of_status, with_event, with_events};
ghost use Rattle.run_examples.specs.Rows.{decided, on_one, row, rows_of, sent};
ghost use Rattle.run_examples.specs.Histories.{at, deciding};
ghost use Rattle.run_examples.specs.Outlooks.{only, well};

/// A problem that lasts is told again once its interval is over.
pub fn told_again()
    ensures { map rows_of (logs_of (site (service 1)) (passive 10 2 ∷ empty 70 ∷ empty 1809 ∷ empty 1868 ∷ empty 1869 ∷ [])) ≡
        (row 10 state.Critical true 1 (sent kind.Problem) ∷ [])
        ∷ (row 70 state.Critical true 1 (on_one kind.Problem outcome.Repeat ∷ []) ∷ [])
        ∷ (row 1809 state.Critical true 1 (on_one kind.Problem outcome.Repeat ∷ []) ∷ [])
        ∷ []
        ∷ (row 1869 state.Critical true 1 (sent kind.Problem) ∷ [])
        ∷ [] }
{}

/// At the moment at which the last one was sent plus the interval it is sent; an interval of 0 never is over.
pub fn intervals()
    ensures over { map decided (logs_of (site_with (service 1) (record notification { interval = 50 }) (user ∷ [])) (passive 10 2 ∷ passive 59 2 ∷ passive 60 2 ∷ [])) ≡
        (sent kind.Problem ∷ []) ∷ ((on_one kind.Problem outcome.Repeat ∷ []) ∷ []) ∷ (sent kind.Problem ∷ []) ∷ [] }
    ensures once { map decided (logs_of (site_with (service 1) (record notification { interval = 0 }) (user ∷ [])) (passive 10 2 ∷ empty 99999999999 ∷ [])) ≡
        (sent kind.Problem ∷ []) ∷ ((on_one kind.Problem outcome.Repeat ∷ []) ∷ []) ∷ [] }
    ensures long { map decided (logs_of (site_with (service 1) (record notification { interval = 18446744073709551615 }) (user ∷ [])) (passive 10 2 ∷ empty 99999999999 ∷ [])) ≡
        (sent kind.Problem ∷ []) ∷ ((on_one kind.Problem outcome.Repeat ∷ []) ∷ []) ∷ [] }
{}

/// A problem is told from `begin` seconds after its change up to `end` seconds after it, both included.
pub fn times_of_a_notification()
    ensures { map decided (logs_of (site_with (service 1) (record notification { begin = Some 50; «end» = Some 100 }) (user ∷ [])) (passive 10 2 ∷ passive 59 2 ∷ passive 60 2 ∷ passive 110 2 ∷ passive 111 2 ∷ [])) ≡
        ((on_one kind.Problem outcome.TooEarly ∷ []) ∷ [])
        ∷ ((on_one kind.Problem outcome.TooEarly ∷ []) ∷ [])
        ∷ (sent kind.Problem ∷ [])
        ∷ ((on_one kind.Problem outcome.Repeat ∷ []) ∷ [])
        ∷ ((on_one kind.Problem outcome.TooLate ∷ []) ∷ [])
        ∷ [] }
{}

/// What was sent since the change counts for a repeat, also where it was sent before another entry of the same moment.
pub fn all_at_one_moment()
    ensures { map decided (logs_of (site (service 1)) (with_events 100 (of_status 2 ∷ event.Down 100 200 true 0 ∷ of_status 1 ∷ event.Undown 2 ∷ []) ∷ empty 160 ∷ [])) ≡
        (sent kind.Problem ∷ [] ∷ (on_one kind.Problem (outcome.Downtime 2) ∷ []) ∷ [] ∷ [])
        ∷ ((on_one kind.Problem outcome.Repeat ∷ []) ∷ [])
        ∷ [] }
{}

/// Each result of a volatile service is told anew, and a tick of it isn't.
pub fn volatile_service()
    ensures { map rows_of (logs_of (site (record (service 3) { volatile = true })) (passive 10 2 ∷ passive 20 2 ∷ empty 80 ∷ [])) ≡
        (row 10 state.Critical true 1 (sent kind.Problem) ∷ [])
        ∷ (row 20 state.Critical true 2 (sent kind.Problem) ∷ [])
        ∷ (row 80 state.Critical true 2 (on_one kind.Problem outcome.Repeat ∷ []) ∷ [])
        ∷ [] }
{}

/// An acknowledgement is told, and holds back what is told again, until the problem ends.
pub fn acknowledged_problem()
    ensures { map rows_of (logs_of (site (service 1)) (passive 10 2 ∷ with_event 20 (event.Ack true true) ∷ empty 80 ∷ passive 90 0 ∷ passive 100 2 ∷ [])) ≡
        (row 10 state.Critical true 1 (sent kind.Problem) ∷ [])
        ∷ (row 20 state.Critical true 1 (sent kind.Acknowledgement) ∷ [])
        ∷ (row 80 state.Critical true 1 (on_one kind.Problem outcome.Acknowledged ∷ []) ∷ [])
        ∷ (row 90 state.Okay true 1 (sent kind.Recovery) ∷ [])
        ∷ (row 100 state.Critical true 1 (sent kind.Problem) ∷ [])
        ∷ [] }
{}

/// An acknowledgement of a SOFT problem is told too, whatever states are; a void one isn't. A downtime and the kinds that are
/// told hold it back.
pub fn told_acknowledgements()
    ensures soft { map decided (logs_of (site (service 3)) (passive 10 2 ∷ with_event 20 (event.Ack false true) ∷ [])) ≡ ([] ∷ []) ∷ (sent kind.Acknowledgement ∷ []) ∷ [] }
    ensures quiet { map decided (logs_of (site (service 3)) (passive 10 2 ∷ with_event 20 (event.Ack false false) ∷ [])) ≡ ([] ∷ []) ∷ ([] ∷ []) ∷ [] }
    ensures void { map decided (logs_of (site (service 3)) (passive 10 0 ∷ with_event 20 (event.Ack false true) ∷ [])) ≡ ([] ∷ []) ∷ ([] ∷ []) ∷ [] }
    ensures states { map decided (logs_of (site_with (service 1) (record notification { states = Some well }) (user ∷ [])) (passive 10 2 ∷ with_event 20 (event.Ack false true) ∷ [])) ≡
        ((on_one kind.Problem outcome.State ∷ []) ∷ []) ∷ (sent kind.Acknowledgement ∷ []) ∷ [] }
    ensures kinds { map decided (logs_of (site_with (service 1) (record notification { kinds = Some only }) (user ∷ [])) (passive 10 2 ∷ with_event 20 (event.Ack false true) ∷ [])) ≡
        (sent kind.Problem ∷ []) ∷ ((on_one kind.Acknowledgement outcome.Kind ∷ []) ∷ []) ∷ [] }
    ensures downtime { map decided (logs_of (site (service 1)) (with_event 10 (event.Down 5 100 true 0) ∷ passive 20 2 ∷ with_event 30 (event.Ack false true) ∷ [])) ≡
        ([] ∷ []) ∷ ((on_one kind.Problem (outcome.Downtime 1) ∷ []) ∷ []) ∷ ((on_one kind.Acknowledgement (outcome.Downtime 1) ∷ []) ∷ []) ∷ [] }
{}

/// A host that is down for sure holds back what its service has to tell.
pub fn host_down()
    ensures { map rows_of (drop 3 (logs_of (site (service 1)) (of_host 10 2 ∷ of_host 20 2 ∷ of_host 30 2 ∷ passive 40 2 ∷ of_host 50 0 ∷ empty 100 ∷ []))) ≡
        (row 40 state.Critical true 1 (on_one kind.Problem (outcome.Host 0) ∷ []) ∷ [])
        ∷ []
        ∷ (row 100 state.Critical true 1 (sent kind.Problem) ∷ [])
        ∷ [] }
{}

/// Notifications that were switched off tell nothing; a switch turns on none that are set off.
pub fn notifications_off()
    ensures switched { map rows_of (logs_of (site (service 1)) (with_event 10 (event.Notes false) ∷ passive 20 2 ∷ [])) ≡
        (row 10 state.Okay true 1 [] ∷ [])
        ∷ (row 20 state.Critical true 1 (on_one kind.Problem outcome.Disabled ∷ []) ∷ [])
        ∷ [] }
    ensures set { map decided (logs_of (site (record (service 1) { notify = false })) (with_event 10 (event.Notes true) ∷ passive 20 2 ∷ [])) ≡
        ([] ∷ []) ∷ ((on_one kind.Problem outcome.Disabled ∷ []) ∷ []) ∷ [] }
{}

/// Periods of a notification and of a user, and users that take no notifications.
pub fn periods_and_users()
    ensures period { map decided (logs_of (site_with (service 1) (record notification { period = Some 9; kinds = Some only }) (user ∷ [])) (passive 10 2 ∷ [])) ≡ ((on_one kind.Problem outcome.Period ∷ []) ∷ []) ∷ [] }
    ensures inside { map decided (logs_of (site_with (service 1) (record notification { period = Some 8 }) (user ∷ [])) (passive 10 2 ∷ [])) ≡ (sent kind.Problem ∷ []) ∷ [] }
    ensures user { map decided (logs_of (site_with (service 1) notification (record user { period = Some 9 } ∷ [])) (passive 10 2 ∷ [])) ≡ ((on_one kind.Problem outcome.NoUsers ∷ []) ∷ []) ∷ [] }
    ensures disabled { map decided (logs_of (site_with (service 1) notification (record user { enabled = false } ∷ [])) (passive 10 2 ∷ [])) ≡ ((on_one kind.Problem outcome.NoUsers ∷ []) ∷ []) ∷ [] }
{}

/// The end of a problem is told to those who heard of the problem.
pub fn unheard_recovery()
    ensures { map rows_of (drop 1 (logs_of (site (service 1)) (with_event 5 (event.Down 10 100 true 0) ∷ passive 60 2 ∷ passive 110 0 ∷ []))) ≡
        (row 60 state.Critical true 1 (on_one kind.Problem (outcome.Downtime 1) ∷ []) ∷ [])
        ∷ (row 110 state.Okay true 1 (on_one kind.Recovery outcome.NoUsers ∷ []) ∷ [])
        ∷ [] }
{}

/// All who heard of the problem since the service was well are told of its end, in the order of the notification's users.
pub fn heard_recovery()
    ensures { map decided (logs_of (site_with (service 1) (record notification { users = 1 ∷ 0 ∷ [] }) (record user { states = Some (record well { critical = true }) } ∷ record user { states = Some (record well { warning = true }) } ∷ [])) (passive 10 2 ∷ passive 20 1 ∷ passive 30 0 ∷ [])) ≡
        ((on_one kind.Problem (outcome.Sent (0 ∷ [])) ∷ []) ∷ [])
        ∷ ((on_one kind.Problem (outcome.Sent (1 ∷ [])) ∷ []) ∷ [])
        ∷ ((on_one kind.Recovery (outcome.Sent (1 ∷ 0 ∷ [])) ∷ []) ∷ [])
        ∷ [] }
{}

/// Of given entries each decision counts: one that was sent twice at an entry was heard by both users, and one that was sent
/// to nobody is repeated all the same.
pub fn given_decisions()
    ensures both { map decided (logs_behind ([] ∷ (deciding (on_one kind.Problem (outcome.Sent (0 ∷ [])) ∷ on_one kind.Problem (outcome.Sent (1 ∷ [])) ∷ []) (at 10 (of_status 2)) ∷ []) ∷ []) (site_with (service 1) (record notification { users = 0 ∷ 1 ∷ [] }) (user ∷ user ∷ [])) (passive 20 0 ∷ [])) ≡
        ((on_one kind.Recovery (outcome.Sent (0 ∷ 1 ∷ [])) ∷ []) ∷ []) ∷ [] }
    ensures nobody { map decided (logs_behind ([] ∷ (deciding (on_one kind.Problem (outcome.Sent []) ∷ []) (at 10 (of_status 2)) ∷ []) ∷ []) (site (service 1)) (empty 70 ∷ [])) ≡
        ((on_one kind.Problem outcome.Repeat ∷ []) ∷ []) ∷ [] }
{}
