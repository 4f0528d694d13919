// Lines on standard error.
use std::fmt::Display;

/// Writes a line of the program's on standard error: a value between two texts. If that fails, there is no place to tell it.
pub(crate) fn say<D: Display + Drop>(rt: &HostRuntime, before: &str, value: D, after: &str) {
    let _ = eprintln!(rt; "icinga_site: {before}{value}{after}");
}
