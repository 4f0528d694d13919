//! Notifications: which are sent at an entry of a checkable, to whom, and what holds the others back (Icinga 2
//! documentation, Monitoring Basics, "Notifications").
//!
//! In reading order: which kinds an entry gives (`kinds`), which kinds and states a filter takes (`filters`) and when a
//! period holds (`periods`), how long a problem is told (`times`), which notifications a checkable has (`note_index`), what
//! was sent before (`listeners`, `sent_note`, `sent_book`), the users who receive one (`receiving`), what comes of one
//! (`held`, `outcomes`), and all that is decided at an entry (`deciding`).
#![tactic(auto)]

mod asked;
mod deciding;
mod filters;
mod held;
mod kinds;
mod listeners;
mod note_index;
mod outcomes;
mod periods;
mod receiving;
mod sent_book;
mod sent_note;
mod times;

pub use deciding::{decide, decides};
pub use note_index::NoteIndex;
pub use sent_book::SentBook;
