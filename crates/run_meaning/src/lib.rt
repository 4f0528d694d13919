//! What a run means: the definitions that every part of the engine is proved against.
//!
//! They stand in `specs/`, in reading order: the view of one checkable (`View`), what a turn brings (`Turns`), the entry
//! that an event makes of a checkable (`Acts`), what the events of one turn make of all checkables (`Rounds`), which
//! caller takes what (`Dealing`), turn after turn (`Runs`), and the same with one event after the other, as functions
//! (`Alone`). What entries are made by is a record, `Rules` of `Acts`, and what a run stands on another, `Basis` of
//! `Runs`; `Meaning` gives those of a site, by the definitions of `Downtimes`, `Reachability`, `Decisions` and `Schedule`.
//! `Lookback` says by looking back what `Schedule` keeps, and `Shares` has the words of the laws. Worked runs are in the crate run_examples.
#![tactic(auto)]

mod laws;
mod schedule_laws;

pub use laws::{
    a_log_is_one_function, callers_one_after_another_make_a_round, dealing_to_one_caller,
    each_event_goes_to_one_caller, each_line_is_an_event_or_refused,
    each_report_is_taken_or_refused, entries_are_the_events_dealt, moves_one_by_one_make_a_round,
    rounds_of_one_caller_are_one, runs_can_be_cut, two_callers_make_rounds,
    two_callers_share_a_turn, view_of_nothing, what_is_refused_changes_nothing,
};
pub use schedule_laws::{
    no_more_orders_than_may_be, outstanding_orders_are_the_same, slots_are_by_looking_back,
};
