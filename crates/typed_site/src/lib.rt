//! The typed site of a configuration's objects: lists that name each other's places, in which a run looks up what it needs
//! (docs/OBJECTS.md, "The typed site").
//!
//! What an object sets, and the default of what it doesn't set, comes from the schema (object_types, object_values). The objects of
//! one type, the time periods, the users and the members of their groups come from object_lists.
//!
//! In reading order: check commands, hosts and services; dependencies; notifications; and the site of all objects.
#![tactic(auto)]

mod checks;
mod depends;
mod notifies;
mod settings;
mod sites;

pub use settings::Settings;
pub use sites::typed_site;
