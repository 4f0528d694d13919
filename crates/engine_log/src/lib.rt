//! The log of the engine: the lines of one turn.
//!
//! In reading order: the lines of what is refused (`refusals`), those of entries (`entries`, and made by several threads `parts`), and
//! those of a whole turn (`turn_text`, and with several threads `many`).
#![tactic(auto)]

mod entries;
mod many;
mod parts;
mod refusals;
mod turn_text;

pub use many::turn_lines_by_many;
pub use turn_text::turn_lines;
