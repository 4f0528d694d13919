// What a plugin tells.
use site_base::Text;

/// What a plugin tells by its exit status and its output.
#[derive(Clone, Drop, PartialEq, Eq)]
pub struct PluginResult {
    /// From 0 to 3, as Icinga 2 takes exit statuses for services: `OK`, `WARNING`, `CRITICAL`, `UNKNOWN`.
    pub status: u8,
    pub output: Text,
    /// The performance data.
    pub perf: Text,
}
