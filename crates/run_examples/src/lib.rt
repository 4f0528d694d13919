//! Worked runs, stated as laws of the definitions in run_meaning and closed by computing them.
//!
//! In reading order: what results, acknowledgements and switches make of a checkable (`states`), `flapping`, `downtimes`,
//! `notifications`, which cause of a suppression is told (`causes`), what holds checkables back (`reachability`), which checks
//! are ordered (`schedule`), and runs as a whole (`runs`). The sites and turns that they speak of stand in `specs/`.
#![tactic(auto)]

mod causes;
mod downtimes;
mod flapping;
mod notifications;
mod reachability;
mod runs;
mod schedule;
mod states;

pub use causes::{dependency_in_a_run, each_cause_in_its_turn};
pub use downtimes::{
    downtime_then_problem, flexible_downtime, live_downtimes, triggered_by_its_own_problem,
    triggering_problem, two_downtimes, void_ends,
};
pub use flapping::{
    flapping_in_a_downtime, flapping_service, flapping_values, slots, thresholds, turned_on,
    two_notifications,
};
pub use notifications::{
    acknowledged_problem, all_at_one_moment, given_decisions, heard_recovery, host_down, intervals,
    notifications_off, periods_and_users, times_of_a_notification, told_acknowledgements,
    told_again, unheard_recovery, volatile_service,
};
pub use reachability::{
    all_ancestors, blocked_parent, dependency_that_is_off, first_dependency, host_of_a_service,
    parent_that_is_a_service, redundancy_group,
};
pub use runs::{fed_lines, given_histories, ticks_behind_lines};
pub use schedule::{
    a_report_and_a_passive_result, check_beside_an_order, earliest_first, few_orders, first_orders,
    forced_check, greatest_moment, held_checks, macro_with_a_bar, moved_force,
    no_skip_beyond_the_limit, retries,
};
pub use states::{
    attempts, changes, given_acknowledgements, host_of_three_attempts, normal_acknowledgement,
    soft_recovery, soft_to_hard, sticky_acknowledgement, switches, void_acknowledgements,
};
