//! What an evaluation works on.
//!
//! In reading order: what a load registers (`template`, `item`, `rule`), what is found by type and name (`places`,
//! `templates`, `committed`), what an evaluation is told (`source_file`, `view`), why it ends early (`stop`), its state (`budget`,
//! `locals`, `task`, `work`, `frame`), what it makes (`making`), and members, operators and the library (`settling`).
#![tactic(auto)]

mod budget;
mod committed;
mod frame;
mod item;
mod locals;
mod making;
mod places;
mod rule;
mod settling;
mod source_file;
mod stop;
mod task;
mod template;
mod templates;
mod view;
mod work;

pub use budget::Budget;
pub use committed::Committed;
pub use frame::{Frame, first_locals};
pub use item::Item;
pub use locals::Locals;
pub use rule::Rule;
pub use settling::member_stop;
pub use source_file::SourceFile;
pub use stop::Stop;
pub use task::{Loading, Task};
pub use template::Template;
pub use templates::Templates;
pub use view::{Known, WorldView};
pub use work::{Work, fault};
