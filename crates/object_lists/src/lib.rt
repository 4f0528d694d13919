//! The objects of each type in lists, in which names stand for places: what the parts of a typed site are made from
//! (docs/OBJECTS.md, "The typed site").
//!
//! What an object sets, and the default of what it doesn't set, comes from the schema (object_types, object_values).
//!
//! In reading order: the objects of one type and how attributes name them; time periods; users; the members of their groups; and
//! whom a notification tells.
#![tactic(auto)]

mod group_names;
mod listed;
mod members;
mod periods;
mod told;
mod users;

pub use listed::{Listed, add_name, all_of, place_in};
pub use members::{Members, members_of};
pub use periods::period_specs;
pub use told::receivers;
pub use users::user_specs;
