//! The expressions of rules and groups: what they see, their conditions, and what a `for` goes over.
//!
//! In reading order: what is seen in expressions (`subject`), names whose values were made once (`prepared`), conditions
//! (`conditions`), and the elements of a `for` (`loops`). What they have to come to is `judged`, `is_kept` and `of_value`
//! (commit_meaning).
#![tactic(auto)]

mod conditions;
mod loops;
mod prepared;
mod subject;

pub use conditions::{Verdict, has_conditions, is_kept, judge};
pub use loops::{Element, elements};
pub use prepared::{Prepared, begin_expressions, prepare, prepare_for_many};
pub use subject::{Subject, bind_subject, named_trees};
