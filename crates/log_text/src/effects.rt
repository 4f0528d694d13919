// What an event made of a checkable.
ghost use Rattle.std.specs.Prelude.{◌≡◌, Some};
ghost use Rattle.site_text.specs.Entries.{state_text};
ghost use Rattle.log_text.specs.EntryReading.{effect_at, state_at, taken_at};
ghost use Rattle.log_text.specs.Fronts.{spelled_at, Gives};

use crate::EntryError;
use crate::events::read_event;
use crate::fields::{behind, read_flag, read_word};
use site_model::{Event, State};
use site_text::state_name;
use std::alloc::Global;

/// An event, whether it had an effect, and the state after it.
#[derive(Drop)]
pub(crate) struct Effect {
    pub event: Event,
    pub taken: bool,
    pub state: State,
    pub hard: bool,
    pub attempt: u32,
}

const STATES: [State; 6] = [
    State::Okay,
    State::Warning,
    State::Critical,
    State::Unknown,
    State::Up,
    State::Down,
];

#[tactic(auto, unfolding(crate::specs::EntryReading::effect_at))]
pub(crate) fn read_effect(alloc: Global, bytes: &[u8]) -> Result<(Effect, &[u8]), EntryError>
    ensures { Gives (λ x. (x.0, x.1.now)) result (effect_at bytes.now) }
{
    let (event, rest) = read_event(alloc, bytes)?;
    let (taken, rest) = read_taken(rest);
    let rest = behind(rest, " -> ")?;
    let (state, rest) = read_state(rest)?;
    let rest = behind(rest, " ")?;
    let (hard, rest) = read_flag(rest, "HARD ", "SOFT ")?;
    let (attempt, rest) = read_word(rest)?;
    let effect = Effect {
        event,
        taken,
        state,
        hard,
        attempt,
    };
    Ok((effect, rest))
}

/// Whether no `void` stands there, and what stands behind it.
fn read_taken(bytes: &[u8]) -> (bool, &[u8])
    ensures { taken_at bytes.now ≡ Some (result.0, result.1.now) }
{
    match bytes.strip_prefix(b" void") {
        Some(rest) => (false, rest),
        None => (true, bytes),
    }
}

#[tactic(auto, unfolding(crate::specs::EntryReading::state_at))]
fn read_state(bytes: &[u8]) -> Result<(State, &[u8]), EntryError>
    ensures { Gives (λ x. (x.0, x.1.now)) result (state_at bytes.now) }
{
    read_state_among(&STATES, bytes)
}

/// The first state of these whose name stands there.
fn read_state_among<'a>(states: &[State], bytes: &'a [u8]) -> Result<(State, &'a [u8]), EntryError>
    ensures { Gives (λ x. (x.0, x.1.now)) result (spelled_at state_text states.now bytes.now) }
{
    for state in states {
        if let Some(rest) = bytes.strip_prefix(state_name(*state).as_bytes()) {
            return Ok((*state, rest));
        }
    }
    Err(EntryError::BadLine)
}
