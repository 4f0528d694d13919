//! What a commit means: the definitions that items, rules, groups and waves are proved against.
//!
//! They stand in `specs/`, in reading order: what comes of each part of it (`Answers`), where evaluations begin (`Starts`), the names
//! of objects and what is in them from the start (`Names`), the object of an item (`Items`), conditions (`Conditions`), the
//! items that a rule makes (`Rules`), the groups that take an object (`Groups`), what stands before a wave (`Worlds`), the order by
//! numbers (`Orders`), one wave after another (`Waves`), and all of it (`Commits`). `CommittedOrder` and `Staying` have the words of the
//! laws. What an expression or a body gives is the matter of eval_meaning, and worked examples are in commit_examples.
#![tactic(auto)]

mod laws;

pub use laws::{
    answers_stay, objects_are_committed_in_order, one_order_by_number, worlds_decide_reads,
};
