// Sets of states.
ghost use Rattle.std.specs.Prelude.{◌≡◌, ◌↔◌, Contains, IsTrue};
ghost use Rattle.site_model.specs.declared.state.State.{State};
ghost use Rattle.site_model.specs.Sets.{has_state};

use crate::State;

/// A set of states, as a filter of users, notifications or dependencies. Clauses ask it by `has_state`.
#[derive(Clone, Copy, PartialEq, Eq)]
pub struct StateSet {
    okay: bool,
    warning: bool,
    critical: bool,
    unknown: bool,
    up: bool,
    down: bool,
}

impl StateSet {
    /// The set of the states of a list.
    pub fn of(list: &[State]) -> StateSet
        ensures { (s : State) → IsTrue (has_state result s) ↔ Contains list.now s }
    {
        StateSet {
            okay: list.contains(&State::Okay),
            warning: list.contains(&State::Warning),
            critical: list.contains(&State::Critical),
            unknown: list.contains(&State::Unknown),
            up: list.contains(&State::Up),
            down: list.contains(&State::Down),
        }
    }

    /// Whether the state is in the set.
    pub fn has(&self, state: State) -> bool
        ensures { result ≡ has_state self.now state }
    {
        match state {
            State::Okay => self.okay,
            State::Warning => self.warning,
            State::Critical => self.critical,
            State::Unknown => self.unknown,
            State::Up => self.up,
            State::Down => self.down,
        }
    }
}
