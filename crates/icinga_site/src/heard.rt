// Standard error, for what is remarked of a site.
ghost use Rattle.std.specs.Prelude.{None};

use crate::said::say;
use site_base::OutOfMemory;
use site_edge::{DiskFiles, Files};
use site_program::{Remark, Remarks};
use std::cell::Cell;
use std::env;
use std::env::VarError;

/// Tells remarks on standard error, unless they are to be left out, and keeps how many checks may be outstanding.
#[derive(Drop)]
pub(crate) struct Heard<'a> {
    rt: &'a HostRuntime,
    quiet: bool,
    limit: &'a Cell<u32>,
}

impl<'a> Heard<'a> {
    pub(crate) fn new(rt: &'a HostRuntime, quiet: bool, limit: &'a Cell<u32>) -> Heard<'a> {
        Heard { rt, quiet, limit }
    }

    /// Whether a remark is told: that periods are taken in UTC isn't news on a machine that is itself in UTC.
    fn is_told(&self, remark: &Remark) -> bool {
        match remark {
            _ if self.quiet => false,
            Remark::InUtc { .. } => !is_in_utc(self.rt),
            _ => true,
        }
    }
}

impl Remarks for Heard<'_> {
    ghost remarked = { λ _. None };

    fn tell(&mut self, remark: &Remark) -> Result<(), OutOfMemory> {
        if self.is_told(remark) {
            say(self.rt, "", remark, "");
        }
        Ok(())
    }

    fn limit(&mut self, checks: u32) {
        self.limit.set(checks);
    }
}

/// Whether the machine's own time is UTC: the variable `TZ` says so, or without it the zone of `/etc/localtime`, or there is neither.
fn is_in_utc(rt: &HostRuntime) -> bool {
    match env::var(rt, "TZ") {
        Ok(zone) => matches!(
            zone.as_str().trim_start_matches(':'),
            "" | "UTC" | "UTC0" | "Etc/UTC" | "Universal" | "Zulu"
        ),
        Err(VarError::NotPresent) => has_local_utc(rt),
        Err(_) => false,
    }
}

/// The last line of a zone's file says which time holds now.
fn has_local_utc(rt: &HostRuntime) -> bool {
    match DiskFiles::new(rt).read("/etc/localtime") {
        Ok(Some(zone)) => zone.as_slice().ends_with(b"\nUTC0\n"),
        Ok(None) => true,
        Err(_) => false,
    }
}
