// Checkables as the configuration sets them.
ghost use Rattle.std.specs.Prelude.{◌≡◌, IfOk};
ghost use Rattle.site_model.specs.PlainSite.{check_view, plain_check};

use site_base::{OutOfMemory, Text, Tree};
use std::alloc::Global;
use std::sync::Arc;

/// A host or a service and how it is checked (Icinga 2 documentation, Object Types, "Host" and
/// "Service"). Indices are places in the lists of the `Site`.
#[derive(Drop)]
pub struct CheckSpec {
    /// The full name: `host`, or `host!service`.
    pub name: Text,
    /// The host of a service, among the checkables; `None` for a host.
    pub host: Option<u32>,
    /// The check command, among the commands.
    pub command: u32,
    /// `max_check_attempts`: after so many results in a row a problem is HARD.
    pub max: u32,
    /// `check_interval`, in seconds.
    pub check_secs: u64,
    /// `retry_interval`, in seconds: the interval while a problem is SOFT.
    pub retry_secs: u64,
    /// `check_period`, among the periods; `None` for always.
    pub period: Option<u32>,
    /// `enable_active_checks`.
    pub active: bool,
    /// `enable_passive_checks`.
    pub passive: bool,
    /// `enable_notifications`.
    pub notify: bool,
    pub volatile: bool,
    /// `enable_flapping`.
    pub flapping: bool,
    /// `flapping_threshold_low`, in thousandths of a percent: below it flapping ends.
    pub low: u64,
    /// `flapping_threshold_high`, in thousandths of a percent: above it flapping begins.
    pub high: u64,
    /// The object's attributes, a `Dict`.
    pub tree: Arc<Tree>,
}

impl CheckSpec {
    /// A host, or a service of the host of this index, that sets nothing: all else is as the defaults are.
    pub fn plain(alloc: Global, name: Text, host: Option<u32>) -> Result<CheckSpec, OutOfMemory>
        ensures { IfOk result (λ c. check_view c ≡ plain_check name host) }
    {
        Ok(CheckSpec {
            name,
            host,
            command: 0,
            max: 3,
            check_secs: 300,
            retry_secs: 60,
            period: None,
            active: true,
            passive: true,
            notify: true,
            volatile: false,
            flapping: false,
            low: 25_000,
            high: 30_000,
            tree: Arc::new(alloc, Tree::Null)?,
        })
    }
}
