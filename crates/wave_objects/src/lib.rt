//! The objects of one wave: its items, what they come to, and the groups that take them.
//!
//! In reading order: the targets of rules (`targets`), the rules by the types that they go to (`by_type`), what rules come to at one object
//! (`at_targets`) and make of all of them (`applying`), the items of a wave (`gathering`), what they come to (`answering`), their objects
//! (`making`), and the groups of these (`joining`). Many workers do the same in `applying_many`, `gathering_many`, `answering_many`,
//! `making_many` and `joining_many`, in which each task is lent what it is about (`lending`). What all of it has to come to is
//! `wave_items`, `item_answer` and `group_members` (commit_meaning), in words in docs/OBJECTS.md.
#![tactic(auto)]

mod answering;
mod answering_many;
mod applying;
mod applying_many;
mod at_targets;
mod by_type;
mod gathering;
mod gathering_many;
mod joining;
mod joining_many;
mod lending;
mod making;
mod making_many;
mod targets;

pub use answering::answer_of;
pub use applying::{Applied, take_answers, unapplied};
pub use at_targets::PlacedAnswer;
pub use by_type::{PlacedRule, RulesOfType, rules_by_type, rules_to};
pub use gathering::{Gathered, gather, put_together};
pub use gathering_many::gather_by_many;
pub use joining::{GroupLists, join_by, join_groups};
pub use joining_many::join_groups_by_many;
pub use making::{Objects, add_answer, add_diags, make_objects};
pub use making_many::make_objects_by_many;
pub use targets::target_of;
