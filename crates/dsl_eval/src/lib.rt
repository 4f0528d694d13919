//! The evaluator of the language.
//!
//! Its functions lead back into each other, and each of them is what the definition says of its kind of node. In reading order:
//! expressions (`expressions`), what is captured (`captures`), calls (`calls`), the methods that call a function for each element
//! (`visits`), statements (`statements`), statements that end with a value (`finishing`), loops (`loops`), assignments
//! (`assigning`), what registers (`registering`), files and templates (`files`), and what callers take (`evaluating`).
#![tactic(auto)]

mod assigning;
mod calls;
mod captures;
mod evaluating;
mod expressions;
mod files;
mod finishing;
mod loops;
mod registering;
mod statements;
mod visits;

pub use evaluating::{eval_body, eval_expr, run_order};
