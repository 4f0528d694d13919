//! A commit: the objects of a load, wave after wave, and then what is checked of all of them together.
//!
//! In reading order: what is committed (`loaded`), what stands before a wave (`world`), one wave (`waves`), who makes it (`maker`),
//! the globals of the site (`site_globals`), and all of it (`commit`), also by many workers (`many`). The items of a wave and their
//! objects are those of wave_objects. What it has to come to is `commit` (commit_meaning), in words in docs/OBJECTS.md.
#![tactic(auto)]

mod commit;
mod loaded;
mod maker;
mod many;
mod site_globals;
mod waves;
mod world;

pub use commit::{commit_by, commit_one};
pub use loaded::Loaded;
pub use maker::WaveMaker;
pub use many::commit_many;
pub use waves::{MOST_ITEMS, Wave, too_many};
pub use world::{add_groups, view_before};
