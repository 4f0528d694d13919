//! Laws of what a log tells: the lines and reports that it tells of a run, read again, are those that the run had, as far as the log
//! shows them.
//!
//! There is no code here that runs: the functions have no parameters, and their contracts are laws of the definitions in site_audit,
//! event_text and run_meaning. In reading order: told command lines and refused ones (`lines`), and how a commit names what they name
//! (`names`); told reports (`reports`); that the texts of results, which a log of version one leaves out, change nothing else
//! (`untold`); in which order told events are taken (`orders`); what is heard in a block, what rounds are made of it, and what turn
//! it tells (`rounds`); that the log of a run is legal (`legal`); and worked examples.
//!
//! The words of these laws stand in `specs/`: sites that are named as a configuration's (`Names`, `Commits`), events that a line can ask for
//! (`Askable`), what each version tells (`Versions`), what is read again (`Telling`, `Reports`), all lines and all reports of a turn
//! (`Refilled`, `Rereported`), what is the same but for texts (`Untold`, `Alike`), orders of things of which some must stand before
//! others (`Orders`) and of events by their kinds (`Kinds`), rounds whose events are taken in such an order (`Retaken`), what entries
//! say (`Heard`), turns that are told (`ToldTurns`), and logs that stand in memory (`Fitting`) and are legal (`LegalLogs`). Types that site_audit keeps within itself are named in `Types`.
#![tactic(auto)]

mod examples;
mod legal;
mod lines;
mod names;
mod orders;
mod reports;
mod rounds;
mod untold;

pub use examples::{
    a_host_with_a_service, a_run_of_the_small_site, a_turn_of_the_small_site, refused_lines,
    told_lines, told_turns,
};
pub use legal::{logs_of_runs_are_legal, logs_of_runs_fit};
pub use lines::{lines_are_read_again, lines_are_refused_again, refusals_are_refused_again};
pub use names::{commits_name_well, sites_of_commits_make_runs};
pub use orders::{
    events_by_kinds_are_those_of_the_turn, tracks_are_taken_in_order, what_is_taken_is_in_order,
};
pub use reports::{reports_are_read_again, reports_are_refused_again};
pub use rounds::{
    blocks_tell_their_turns, blocks_tell_turns_of_callers, entries_are_heard, rounds_are_told,
    told_orders_go_by_kinds, told_rounds_are_rounds,
};
pub use untold::{texts_change_nothing_else, turns_without_texts_write_the_same};
