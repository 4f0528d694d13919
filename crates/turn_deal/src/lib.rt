//! Which acts a turn gives, and what it refuses.
//!
//! In reading order: what is refused (`refusal`), what is dealt (`dealt`), which of it each of many callers takes (`callers`), what
//! command lines give (`lines`, and read by several threads `parts`), what the reports of orders give (`reports`) and what lasting
//! problems give (`ticks`), and all of it (`dealing`).
#![tactic(auto)]

mod callers;
mod dealing;
mod dealt;
mod lines;
mod parts;
mod refusal;
mod reports;
mod ticks;

pub use dealing::{deal, deal_by_many};
pub use dealt::{Acts, Dealt, ReportAct};
pub use refusal::Refusal;
