//! Tests that no table can hold of what a run stands on: what past downtimes cost, the sizes that a wheel is made for, the turn lock
//! in one thread and in many, the real files, standard output, many names, and the stack that a listing takes.
//!
//! The turn lock's machine is in `counting`, what is called in `calls`; `one_thread`, `refusing`, `gates`, `threads` and `turn_speed` are its tests.
#![tactic(auto)]

#[cfg(test)]
mod calls;
#[cfg(test)]
mod counting;
#[cfg(test)]
mod deep_listing;
#[cfg(test)]
mod disk;
#[cfg(test)]
mod gates;
#[cfg(test)]
mod many_names;
#[cfg(test)]
mod one_thread;
#[cfg(test)]
mod output;
#[cfg(test)]
mod past_downtimes;
#[cfg(test)]
mod refusing;
#[cfg(test)]
mod threads;
#[cfg(test)]
mod turn_speed;
#[cfg(test)]
mod wheel_speed;
