// What statuses and states mean.
ghost use Rattle.std.specs.Prelude.{◌≡◌, Some, None};
ghost use Rattle.run_meaning.specs.View.{state_by, state_unchecked, is_problem as problem, same_state as same};

use site_model::State;

/// Whether a state is a problem: each one but `Okay` and `Up` (Icinga 2 documentation, Monitoring Basics,
/// "Check States").
pub fn is_problem(state: State) -> bool
    ensures { result ≡ problem state }
{
    !matches!(state, State::Okay | State::Up)
}

/// The state at a plugin's status. A host is up at 0 and 1.
pub(crate) fn state_at(host: Option<u32>, status: u8) -> State
    ensures { result ≡ state_by host status }
{
    match host {
        None => host_state(status),
        Some(_) => service_state(status),
    }
}

fn host_state(status: u8) -> State
    ensures { result ≡ state_by None status }
{
    if status < 2 { State::Up } else { State::Down }
}

fn service_state(status: u8) -> State
    ensures { result ≡ state_by (Some 0) status }
{
    match status {
        0 => State::Okay,
        1 => State::Warning,
        2 => State::Critical,
        _ => State::Unknown,
    }
}

/// The state before any result.
pub(crate) fn unchecked(host: Option<u32>) -> State
    ensures { result ≡ state_unchecked host }
{
    match host {
        None => State::Up,
        Some(_) => State::Okay,
    }
}

pub(crate) fn is_same(left: State, right: State) -> bool
    ensures { result ≡ same left right }
{
    matches!(
        (left, right),
        (State::Okay, State::Okay)
            | (State::Warning, State::Warning)
            | (State::Critical, State::Critical)
            | (State::Unknown, State::Unknown)
            | (State::Up, State::Up)
            | (State::Down, State::Down)
    )
}
