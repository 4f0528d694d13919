//! What plugins write: their output and their performance data.
#![tactic(auto)]

mod plugin_result;
mod reading;
mod trimming;

pub use plugin_result::PluginResult;
pub use reading::read_output;
