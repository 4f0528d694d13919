//! The loop of a run: turn after turn its lines are written and its orders started.
//!
//! In reading order: with what a run ends (`status`), what stands before a turn's own lines (`feed`), who takes its events (`workers`; `many`), and
//! the world of a script (`script_world`); why a run stops within a turn (`stop`), which orders are started (`starting`), a turn of the
//! engine (`taking`) and of the whole run (`turning`), and all turns (`driving`); what is known of that (`laws`), and the whole log of a
//! site (`logs`).
#![tactic(auto)]

mod driving;
mod feed;
mod laws;
mod logs;
mod many;
mod script_world;
mod starting;
mod status;
mod stop;
mod taking;
mod turning;
mod workers;

pub use driving::{drive_part, drive_part_one};
pub use feed::{Feed, NoFeed};
pub use laws::{
    a_log_over_a_site_is_one, a_zone_file_decides_when_periods_hold, logs_of_one_caller_are_one,
    runs_write_their_text,
};
pub use logs::write_log;
pub use many::ManyWorkers;
pub use script_world::ScriptWorld;
pub use status::Status;
pub use workers::{OneWorker, Workers};
