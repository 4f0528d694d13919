//! What two callers make of a turn: a worked run (`callers`), and laws that each order of their events is an outcome, and that there is
//! no other (`laws`).
#![tactic(auto)]

mod callers;
mod laws;

pub use callers::two_callers_on_a_service;
pub use laws::{a_host_and_its_service_in_either_order, a_line_and_a_report_in_either_order};
