//! The values of an object's attributes, as a run needs them: what the object sets, and what the schema says where it
//! doesn't (docs/OBJECTS.md; Icinga 2 documentation, chapter "Object Types").
//!
//! No default is written here; each is looked up in the schema (object_types).
//!
//! In reading order: what an object sets under an attribute, what values stand for, the values that hold, and sets of states
//! and kinds.
#![tactic(auto)]

mod attributes;
mod filters;
mod reading;
mod values;

pub use attributes::Attributes;
pub use reading::text_of;
