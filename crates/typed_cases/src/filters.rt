// Filters of states and of kinds of notifications, by letters.
use site_base::{OutOfMemory, Text};
use site_model::{KindSet, NoteKind, State, StateSet};

/// Each state with its letter.
const STATES: [(State, char); 6] = [
    (State::Okay, 'o'),
    (State::Warning, 'w'),
    (State::Critical, 'c'),
    (State::Unknown, 'u'),
    (State::Up, 'U'),
    (State::Down, 'D'),
];

/// Each kind with its letter.
const KINDS: [(NoteKind, char); 9] = [
    (NoteKind::Problem, 'p'),
    (NoteKind::Recovery, 'r'),
    (NoteKind::Acknowledgement, 'a'),
    (NoteKind::Custom, 'c'),
    (NoteKind::DowntimeStart, 's'),
    (NoteKind::DowntimeEnd, 'e'),
    (NoteKind::DowntimeRemoved, 'x'),
    (NoteKind::FlappingStart, 'S'),
    (NoteKind::FlappingEnd, 'E'),
];

/// Adds the letters of the states in a set, or `none`.
pub(crate) fn push_states(out: &mut Text, states: &StateSet) -> Result<(), OutOfMemory> {
    out.push_str(" states ")?;
    let mut is_empty = true;
    for (state, letter) in &STATES {
        if states.has(*state) {
            out.push(*letter)?;
            is_empty = false;
        }
    }
    if is_empty {
        out.push_str("none")
    } else {
        Ok(())
    }
}

/// Adds the letters of the kinds in a set, or `none`.
fn push_kinds(out: &mut Text, kinds: &KindSet) -> Result<(), OutOfMemory> {
    out.push_str(" kinds ")?;
    let mut is_empty = true;
    for (kind, letter) in &KINDS {
        if kinds.has(*kind) {
            out.push(*letter)?;
            is_empty = false;
        }
    }
    if is_empty {
        out.push_str("none")
    } else {
        Ok(())
    }
}

/// Adds what filters take that don't take all.
pub(crate) fn push_filters(
    out: &mut Text,
    kinds: &Option<KindSet>,
    states: &Option<StateSet>,
) -> Result<(), OutOfMemory> {
    if let Some(kinds) = kinds {
        push_kinds(out, kinds)?;
    }
    if let Some(states) = states {
        push_states(out, states)?;
    }
    Ok(())
}
