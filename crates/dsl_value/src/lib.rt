//! The values of the configuration language, and the stores of cells that arrays and dictionaries lie in.
//!
//! In reading order: values (`value`), pairs by rising keys (`sorted_pairs`, with `pairs` for those in a row, `pair_rows` for
//! those in several, and `pairs_left` for walks over them), cells with what changes one (`cell`, `change`, `cells`), functions
//! (`function`), cells and functions that stores share (`part`, `layer`, `live`, `frozen`), the store (`store`, `reading`, `writing`,
//! `set_fault`), when values are equal (`equality`, `known`), trees that are put in (`loading`), the trees of values
//! (`walking`, with `looking`, `frame`, `frames`, `nest`, `path`, `turn` and `tree_fault`), and what trees cost (`costs`).
//! What operators and the library make for a store stands in `making` and `acting` (with `priced` and `refusal`), and laws
//! of stores in `laws`.
#![tactic(auto)]

mod acting;
mod cell;
mod cells;
mod change;
mod costs;
mod equality;
mod frame;
mod frames;
mod frozen;
mod function;
mod known;
mod laws;
mod layer;
mod live;
mod loading;
mod looking;
mod making;
mod nest;
mod pair_rows;
mod pairs;
mod pairs_left;
mod part;
mod path;
mod priced;
mod reading;
mod refusal;
mod set_fault;
mod sorted_pairs;
mod store;
mod tree_fault;
mod turn;
mod value;
mod walking;
mod writing;

pub use acting::Act;
pub use cell::Cell;
pub use change::Change;
pub use costs::tree_cost;
pub use equality::equal;
pub use function::Function;
pub use laws::{growth_adds_up, stores_are_plain, trees_cost_what_was_counted};
pub use making::Made;
pub use pairs_left::PairsLeft;
pub use priced::Priced;
pub use refusal::Refusal;
pub use set_fault::SetFault;
pub use sorted_pairs::SortedPairs;
pub use store::Store;
pub use tree_fault::TreeFault;
pub use value::Value;
