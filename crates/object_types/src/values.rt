// Which values are of a kind.
ghost use Rattle.std.specs.Prelude.{◌≡◌};
ghost use Rattle.site_base.specs.View.{view, items_view, pairs_view};
ghost use Rattle.object_types.specs.Values.{is_string, is_boolean, is_dict, is_number, is_count, is_positive, is_from_zero};
ghost use Rattle.object_types.specs.Values.{is_text, is_element, are_elements, is_list, is_state_name, is_note_kind_name};
ghost use Rattle.object_types.specs.Values.{is_limit, names_limit, are_limits, is_times, fits, is_unset};

use crate::ValueKind;
use site_base::{Num, Text, Tree};

/// What an element of an array has to be.
#[derive(Clone, Copy, PartialEq, Eq)]
pub(crate) enum Element {
    /// A string.
    Text,
    /// The name of a state.
    State,
    /// The name of a kind of notifications.
    NoteKind,
}

impl ValueKind {
    /// Whether a value counts as not set: it is null, or the empty string where values name other objects.
    pub fn is_unset(self, value: &Tree) -> bool
        ensures { result ≡ is_unset self (view value.now) }
    {
        match value {
            Tree::Null => true,
            Tree::Str(text) => self.refers() && text.is_empty(),
            _ => false,
        }
    }

    /// Whether a value is of the kind. Of time ranges only that they are a dictionary is looked at.
    pub(crate) fn fits(self, value: &Tree) -> bool
        ensures { result ≡ fits self (view value.now) }
    {
        match self {
            ValueKind::Text => is_string(value),
            ValueKind::Bool => is_boolean(value),
            ValueKind::Count => is_count(value),
            ValueKind::PositiveSeconds => is_positive(value),
            ValueKind::Seconds => is_from_zero(value),
            ValueKind::Dict => is_dict(value),
            ValueKind::Command => is_string(value) || is_list(value, Element::Text),
            ValueKind::Times => is_times(value),
            ValueKind::States => is_list(value, Element::State),
            ValueKind::NoteKinds => is_list(value, Element::NoteKind),
            ValueKind::Ranges => is_dict(value),
            ValueKind::Name(_) => is_string(value),
            ValueKind::Service(_) => is_string(value),
            ValueKind::Names(_) => is_list(value, Element::Text),
        }
    }
}

fn is_string(value: &Tree) -> bool
    ensures { result ≡ is_string (view value.now) }
{
    matches!(value, Tree::Str(_))
}

fn is_boolean(value: &Tree) -> bool
    ensures { result ≡ is_boolean (view value.now) }
{
    matches!(value, Tree::Bool(_))
}

fn is_dict(value: &Tree) -> bool
    ensures { result ≡ is_dict (view value.now) }
{
    matches!(value, Tree::Dict(_))
}

/// Whether it is a whole number from 1 to 1,000,000.
fn is_count(value: &Tree) -> bool
    ensures { result ≡ is_number is_count (view value.now) }
{
    match value {
        Tree::Number(number) => counts(number),
        _ => false,
    }
}

fn counts(number: &Num) -> bool
    ensures { result ≡ is_count number.now }
{
    match u64::try_from(number.thousandths()) {
        Ok(n) => 1_000 <= n && n <= 1_000_000 * 1_000 && n % 1_000 == 0,
        Err(_) => false,
    }
}

fn is_positive(value: &Tree) -> bool
    ensures { result ≡ is_number is_positive (view value.now) }
{
    match value {
        Tree::Number(number) => number.thousandths() > 0,
        _ => false,
    }
}

fn is_from_zero(value: &Tree) -> bool
    ensures { result ≡ is_number is_from_zero (view value.now) }
{
    match value {
        Tree::Number(number) => number.thousandths() >= 0,
        _ => false,
    }
}

/// Whether it is an array of such elements.
fn is_list(value: &Tree, element: Element) -> bool
    ensures { result ≡ is_list element (view value.now) }
{
    match value {
        Tree::List(items) => are_elements(items, element),
        _ => false,
    }
}

fn are_elements(items: &[Tree], element: Element) -> bool
    ensures { result ≡ are_elements element (items_view items.now) }
{
    for item in items {
        if !is_element(item, element) {
            return false;
        }
    }
    true
}

fn is_element(item: &Tree, element: Element) -> bool
    ensures { result ≡ is_text (is_element element) (view item.now) }
{
    match item {
        Tree::Str(text) => names(text.as_str(), element),
        _ => false,
    }
}

fn names(text: &str, element: Element) -> bool
    ensures { result ≡ is_element element text.now }
{
    match element {
        Element::Text => true,
        Element::State => is_state_name(text),
        Element::NoteKind => is_note_kind_name(text),
    }
}

fn is_state_name(name: &str) -> bool
    ensures { result ≡ is_state_name name.now }
{
    name == "OK"
        || name == "Warning"
        || name == "Critical"
        || name == "Unknown"
        || name == "Up"
        || name == "Down"
}

fn is_note_kind_name(name: &str) -> bool
    ensures { result ≡ is_note_kind_name name.now }
{
    name == "Problem"
        || name == "Recovery"
        || name == "Acknowledgement"
        || name == "Custom"
        || name == "DowntimeStart"
        || name == "DowntimeEnd"
        || name == "DowntimeRemoved"
        || name == "FlappingStart"
        || name == "FlappingEnd"
}

/// Whether it is a dictionary in which `begin` and `end` are seconds from 0 or null.
fn is_times(value: &Tree) -> bool
    ensures { result ≡ is_times (view value.now) }
{
    match value {
        Tree::Dict(pairs) => are_limits(pairs),
        _ => false,
    }
}

fn are_limits(pairs: &[(Text, Tree)]) -> bool
    ensures { result ≡ are_limits (pairs_view pairs.now) }
{
    for (key, value) in pairs {
        if names_limit(key.as_str()) && !is_limit(value) {
            return false;
        }
    }
    true
}

fn names_limit(key: &str) -> bool
    ensures { result ≡ names_limit key.now }
{
    key == "begin" || key == "end"
}

fn is_limit(value: &Tree) -> bool
    ensures { result ≡ is_limit (view value.now) }
{
    match value {
        Tree::Null => true,
        Tree::Number(number) => number.thousandths() >= 0,
        _ => false,
    }
}
