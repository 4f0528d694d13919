//! Logs that are audited over a site that stands: what is written of one.
//!
//! In reading order: the line of a verdict (`verdicts`), what is written of a log (`auditing`), and what is known of that (`laws`).
#![tactic(auto)]

mod auditing;
mod laws;
mod verdicts;

pub use auditing::audit_site;
pub use laws::a_verdict_is_one;
