//! The types of objects: which attributes each has, and whether an object's attributes are as its type
//! says.
//!
//! The types and their attributes are those of the Icinga 2 documentation, chapter "Object Types".
//! `docs/OBJECTS.md` has them in words. They stand here as one table, and what else goes by attributes
//! (which objects a value names, what holds where an attribute isn't set) reads the same table.
//!
//! In reading order: the types and the attributes by name, what a value has to be, the table, where a
//! name stands in it, which values are of a kind, the check of an object, and what it means.
#![tactic(auto)]

mod attribute;
mod checking;
mod laws;
mod lookups;
mod object_type;
mod schema;
mod value_kind;
mod values;

pub use attribute::Attribute;
pub use checking::check_object;
pub use laws::objects_without_faults_are_lawful;
pub use object_type::ObjectType;
pub use value_kind::{SchemaRow, Unset, ValueKind};
