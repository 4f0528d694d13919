//! Laws of rounds and schedules for whoever makes them: what callers tell of the events that they took makes a round, however
//! they took turns and however late they looked; those that are due stand in their order (`laws`); and what holds a
//! checkable back goes by its parents (`reaching`).
#![tactic(auto)]

mod laws;
mod reaching;

pub use laws::{due_ones_stand_in_order, idle_callers_change_no_round, traces_make_a_round};
pub use reaching::what_holds_back_goes_by_parents;
