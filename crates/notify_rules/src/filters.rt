// What the filters of notifications and users take.
ghost use Rattle.std.specs.Prelude.{◌≡◌};
ghost use Rattle.run_meaning.specs.Decisions.{takes_kind, takes_state, tells_state, is_for_problem, is_for_recovery};

use site_model::{KindSet, NoteKind, State, StateSet};

/// Whether a filter takes a kind; one that isn't set takes all.
pub(crate) fn takes_kind(filter: &Option<KindSet>, kind: NoteKind) -> bool
    ensures { result ≡ takes_kind filter.now kind }
{
    match filter {
        None => true,
        Some(kinds) => kinds.has(kind),
    }
}

/// Whether a filter takes a state; one that isn't set takes all.
pub(crate) fn takes_state(filter: &Option<StateSet>, state: State) -> bool
    ensures { result ≡ takes_state filter.now state }
{
    match filter {
        None => true,
        Some(states) => states.has(state),
    }
}

/// Whether a kind tells of a state.
pub(crate) fn tells_state(kind: NoteKind) -> bool
    ensures { result ≡ tells_state kind }
{
    is_for_problem(kind) || is_for_recovery(kind)
}

pub(crate) fn is_for_problem(kind: NoteKind) -> bool
    ensures { result ≡ is_for_problem kind }
{
    matches!(kind, NoteKind::Problem)
}

pub(crate) fn is_for_recovery(kind: NoteKind) -> bool
    ensures { result ≡ is_for_recovery kind }
{
    matches!(kind, NoteKind::Recovery)
}
