// What the schema says of an attribute.
use crate::{Attribute, ObjectType};

/// What a value has to be. Null is no value, whatever the attribute.
#[derive(Clone, Copy, PartialEq, Eq)]
pub enum ValueKind {
    /// A string.
    Text,
    Bool,
    /// A whole number from 1 to 1,000,000.
    Count,
    /// Seconds, above 0; they may have a fraction.
    PositiveSeconds,
    /// Seconds, from 0; they may have a fraction.
    Seconds,
    /// A dictionary.
    Dict,
    /// A string, which a shell runs, or an array of strings.
    Command,
    /// A dictionary in which `begin` and `end`, if they are set, are seconds from 0.
    Times,
    /// An array of names of states.
    States,
    /// An array of names of kinds of notifications.
    NoteKinds,
    /// A dictionary of time ranges.
    Ranges,
    /// A string, the full name of an object of this type. The empty one is no value.
    Name(ObjectType),
    /// A string, the name of a service of the host that another attribute names. The empty one is no value.
    Service(Attribute),
    /// An array of full names of objects of this type. The empty string is no value.
    Names(ObjectType),
}

/// What holds where an attribute isn't set.
#[derive(Clone, Copy, PartialEq, Eq)]
pub enum Unset {
    /// The object is refused.
    Missing,
    /// There is no such thing.
    Nothing,
    /// This value.
    Bool(bool),
    /// This number; seconds, where the values are.
    Number(u32),
    /// The states `OK` and `Warning` of a parent that is a service, and `Up` of one that is a host.
    GoodStates,
}

/// A row of the schema: what a type says of one of its attributes.
#[derive(Clone, Copy, PartialEq, Eq)]
pub struct SchemaRow {
    pub attribute: Attribute,
    pub kind: ValueKind,
    pub unset: Unset,
}

impl ValueKind {
    ghost use Rattle.std.specs.Prelude.{◌≡◌};
    ghost use Rattle.object_types.specs.Values.{refers};

    /// Whether values name other objects.
    pub fn refers(self) -> bool
        ensures { result ≡ refers self }
    {
        matches!(
            self,
            ValueKind::Name(_) | ValueKind::Service(_) | ValueKind::Names(_)
        )
    }
}
