//! The typed site that a configuration gives, and what a run makes of it.
//!
//! In reading order: states, kinds of notifications and the sets of them; the objects and what a run
//! needs of them; the site as a whole; events, what is seen of a checkable, decisions and entries.
#![tactic(auto)]

mod ack;
mod check_spec;
mod command_spec;
mod decision;
mod depend_spec;
mod entry;
mod event;
mod kind_set;
mod names;
mod note_kind;
mod notify_spec;
mod object;
mod outcome;
mod sight;
mod site;
mod state;
mod state_set;
mod user_spec;
mod view;

pub use ack::Ack;
pub use check_spec::CheckSpec;
pub use command_spec::CommandSpec;
pub use decision::Decision;
pub use depend_spec::DependSpec;
pub use entry::Entry;
pub use event::Event;
pub use kind_set::KindSet;
pub use names::Names;
pub use note_kind::NoteKind;
pub use notify_spec::NotifySpec;
pub use object::Object;
pub use outcome::Outcome;
pub use sight::Sight;
pub use site::Site;
pub use state::State;
pub use state_set::StateSet;
pub use user_spec::UserSpec;
pub use view::View;
