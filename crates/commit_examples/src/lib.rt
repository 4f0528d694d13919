//! Worked examples of evaluations and commits, stated as laws of the definitions in eval_meaning and commit_meaning and closed by computing
//! them.
//!
//! In reading order: what evaluations give (`evaluations`), the names of objects and what is in them from the start (`names`), what is made
//! of items (`items`), the items that rules make (`rules`), the groups that take an object (`groups`), whole commits (`sites`), and commits
//! in which something is wrong (`failing`). The objects, rules, groups and sites that they speak of stand in `specs/`.
#![tactic(auto)]

mod evaluations;
mod failing;
mod groups;
mod items;
mod names;
mod rules;
mod sites;

pub use evaluations::{
    a_read_that_is_not_decided, adding_to_nothing, captured_values, locals_of_a_template,
    loops_over_what_changes, space_for_a_write, steps_before_depth, this_of_a_member_call,
};
pub use failing::{faults_of_one_wave, one_item_too_many, the_first_failing_wave};
pub use groups::{added_names, groups_with_a_fault, groups_without_conditions, hosts_of_services};
pub use items::{attributes_of_a_body, bound_names_in_templates, frozen_values, written_name};
pub use names::{full_names, names_in_statements, presets};
pub use rules::{
    bad_names, conditions_behind_others, copies_for_each_element, kept_elements, names_of_a_loop,
    one_ignored_host, unset_variables,
};
pub use sites::{services_for_disks, two_hosts_of_one_name};
