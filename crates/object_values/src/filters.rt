// Sets of states and of kinds of notifications, by their names in arrays.
ghost use Rattle.std.specs.Prelude.{◌≡◌, ◌++◌, ◌∷◌, [], true, false, IfOk, OnOk, if◌then◌else◌};
ghost use Rattle.site_base.specs.View.{view, items_view};
ghost use Rattle.object_values.specs.Filters.{state_name as name_of_state, kind_name as name_of_kind, is_text as text_is, has_text as text_among};
ghost use Rattle.object_values.specs.Filters.{set_of_states, set_of_kinds, names_state, names_kind, states_at, kinds_at, states_through, unset_states as states_unset, is_good};

use crate::Attributes;
use object_types::{Attribute, Unset};
use site_base::{OutOfMemory, Tree};
use site_model::{KindSet, NoteKind, State, StateSet};
use std::alloc::Global;

static STATES: [State; 6] = [
    State::Okay,
    State::Warning,
    State::Critical,
    State::Unknown,
    State::Up,
    State::Down,
];

static KINDS: [NoteKind; 9] = [
    NoteKind::Problem,
    NoteKind::Recovery,
    NoteKind::Acknowledgement,
    NoteKind::Custom,
    NoteKind::DowntimeStart,
    NoteKind::DowntimeEnd,
    NoteKind::DowntimeRemoved,
    NoteKind::FlappingStart,
    NoteKind::FlappingEnd,
];

impl Attributes<'_> {
    /// The states that are named; `None`, which is all, if none is set.
    pub fn states(
        &self,
        alloc: Global,
        attribute: Attribute,
    ) -> Result<Option<StateSet>, OutOfMemory>
        ensures { IfOk result (λ set. set ≡ states_at self.now.kind attribute (view self.now.tree.now)) }
    {
        match self.items(attribute) {
            Some(items) => Ok(Some(states_named(alloc, items)?)),
            None => Ok(None),
        }
    }

    /// The kinds that are named; `None`, which is all, if none is set.
    pub fn kinds(&self, alloc: Global, attribute: Attribute) -> Result<Option<KindSet>, OutOfMemory>
        ensures { IfOk result (λ set. set ≡ kinds_at self.now.kind attribute (view self.now.tree.now)) }
    {
        match self.items(attribute) {
            Some(items) => Ok(Some(kinds_named(alloc, items)?)),
            None => Ok(None),
        }
    }

    /// The states that are let through: those that are named, and else the good ones of a service or of a host.
    pub fn states_through(
        &self,
        alloc: Global,
        attribute: Attribute,
        of_service: bool,
    ) -> Result<StateSet, OutOfMemory>
        ensures { IfOk result (λ set. set
            ≡ states_through self.now.kind attribute of_service (view self.now.tree.now)) }
    {
        match self.states(alloc, attribute)? {
            Some(set) => Ok(set),
            None => Ok(unset_states(of_service, self.unset(attribute))),
        }
    }
}

/// The states that the strings of an array name.
fn states_named(alloc: Global, items: &[Tree]) -> Result<StateSet, OutOfMemory>
    ensures { IfOk result (λ set. set ≡ set_of_states (names_state (items_view items.now))) }
{
    let mut list = Vec::new(alloc);
    for state in &STATES {
        push_state(&mut list, *state, has_text(state_name(*state), items))?;
    }
    Ok(StateSet::of(&list))
}

/// Adds a state that is named.
fn push_state(list: &mut Vec<State>, state: State, is_named: bool) -> Result<(), OutOfMemory>
    ensures { OnOk result (list.new.items ≡ list.old.items ++ (if is_named then state ∷ [] else [])) }
{
    if is_named {
        list.push(state)?;
    }
    Ok(())
}

/// The kinds that the strings of an array name.
fn kinds_named(alloc: Global, items: &[Tree]) -> Result<KindSet, OutOfMemory>
    ensures { IfOk result (λ set. set ≡ set_of_kinds (names_kind (items_view items.now))) }
{
    let mut list = Vec::new(alloc);
    for kind in &KINDS {
        push_kind(&mut list, *kind, has_text(kind_name(*kind), items))?;
    }
    Ok(KindSet::of(&list))
}

/// Adds a kind that is named.
fn push_kind(list: &mut Vec<NoteKind>, kind: NoteKind, is_named: bool) -> Result<(), OutOfMemory>
    ensures { OnOk result (list.new.items ≡ list.old.items ++ (if is_named then kind ∷ [] else [])) }
{
    if is_named {
        list.push(kind)?;
    }
    Ok(())
}

/// What is let through where no states are named.
fn unset_states(of_service: bool, unset: Unset) -> StateSet
    ensures { result ≡ states_unset of_service unset }
{
    match unset {
        Unset::GoodStates if of_service => good_of_service(),
        Unset::GoodStates => good_of_host(),
        _ => no_states(),
    }
}

fn no_states() -> StateSet
    ensures { result ≡ set_of_states (λ s. false) }
{
    StateSet::of(&[])
}

fn good_of_service() -> StateSet
    ensures { result ≡ set_of_states (is_good true) }
{
    StateSet::of(&[State::Okay, State::Warning])
}

fn good_of_host() -> StateSet
    ensures { result ≡ set_of_states (is_good false) }
{
    StateSet::of(&[State::Up])
}

/// Whether a string is one of the elements of an array.
fn has_text(text: &str, items: &[Tree]) -> bool
    ensures { result ≡ text_among text.now (items_view items.now) }
{
    for item in items {
        if is_text(text, item) {
            return true;
        }
    }
    false
}

fn is_text(text: &str, value: &Tree) -> bool
    ensures { result ≡ text_is text.now (view value.now) }
{
    match value {
        Tree::Str(other) => other.as_str() == text,
        _ => false,
    }
}

fn state_name(state: State) -> &'static str
    ensures { result.now ≡ name_of_state state }
{
    match state {
        State::Okay => "OK",
        State::Warning => "Warning",
        State::Critical => "Critical",
        State::Unknown => "Unknown",
        State::Up => "Up",
        State::Down => "Down",
    }
}

fn kind_name(kind: NoteKind) -> &'static str
    ensures { result.now ≡ name_of_kind kind }
{
    match kind {
        NoteKind::Problem => "Problem",
        NoteKind::Recovery => "Recovery",
        NoteKind::Acknowledgement => "Acknowledgement",
        NoteKind::Custom => "Custom",
        NoteKind::DowntimeStart => "DowntimeStart",
        NoteKind::DowntimeEnd => "DowntimeEnd",
        NoteKind::DowntimeRemoved => "DowntimeRemoved",
        NoteKind::FlappingStart => "FlappingStart",
        NoteKind::FlappingEnd => "FlappingEnd",
    }
}
