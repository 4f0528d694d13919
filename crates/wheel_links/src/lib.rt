//! The timing wheel: which checkable is due next.
//!
//! A [`Wheel`] is a finite map from ids below its capacity to moments. It finds the member that is
//! due first in at most 33 looks, and a change takes at most sixteen steps through its links,
//! however many members there are and in whatever order they were placed.
//!
//! In reading order: the counter of steps (`steps`), the cells' neighbours (`links`), the tree of
//! least moments (`tree`), and the wheel (`wheel`).
#![tactic(auto)]

mod links;
mod steps;
mod tree;
mod wheel;

pub use links::{Link, Links};
pub use steps::Steps;
pub use wheel::{Absent, Present, Wheel};
