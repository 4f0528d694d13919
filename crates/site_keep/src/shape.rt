// The parts of a state file as a JSON value.
ghost use Rattle.std.specs.Prelude.{◌≡◌, Some, None, MatchOption};
ghost use Rattle.serde_json.specs.View.{members_view, view};
ghost use Rattle.site_keep.specs.Given.{Gives};
ghost use Rattle.site_keep.specs.Shape.{two_among as members_among, two_members as members_of, value_of};

use crate::KeepError;
use serde_json::{Map, Value};
use std::alloc::Global;

/// The JSON value of some bytes.
pub(crate) fn read_value(alloc: Global, bytes: &[u8]) -> Result<Value, KeepError>
    ensures { Gives view result (value_of bytes.now) }
{
    match Value::from_slice(alloc, bytes) {
        Ok(value) => Ok(value),
        Err(error) if error.is_memory() => Err(KeepError::OutOfMemory),
        Err(_) => Err(KeepError::BadState),
    }
}

/// The values of the members of an object that has these two and no others; `None` of another value.
#[tactic(auto, unfolding(crate::specs::Shape::two_members))]
pub(crate) fn two_members<'v>(
    value: &'v Value,
    first: &str,
    second: &str,
) -> Option<(&'v Value, &'v Value)>
    ensures { MatchOption result (members_of first.now second.now (view value.now) ≡ None)
        (λ p. members_of first.now second.now (view value.now) ≡ Some (view p.0.now, view p.1.now)) }
{
    match value {
        Value::Object(members) => two_among(members, first, second),
        _ => None,
    }
}

fn two_among<'v>(
    members: &'v Map<String, Value>,
    first: &str,
    second: &str,
) -> Option<(&'v Value, &'v Value)>
    ensures { MatchOption result (members_among first.now second.now (members_view members.now.entries) ≡ None)
        (λ p. members_among first.now second.now (members_view members.now.entries) ≡ Some (view p.0.now, view p.1.now)) }
{
    let mut members = members.iter();
    let Some((one, a)) = members.next() else {
        return None;
    };
    let Some((other, b)) = members.next() else {
        return None;
    };
    if members.next().is_some() {
        return None;
    }
    if one.as_str() == first && other.as_str() == second {
        Some((a, b))
    } else {
        None
    }
}
