// Lines of scripts.
use site_base::{Blob, Moment};
use site_edge::Report;

/// A line of a script.
#[derive(Drop)]
pub enum ScriptLine {
    /// A new turn at a moment.
    Turn(Moment),
    /// A report of the last turn.
    Report(Report),
    /// A command line of the last turn.
    Line(Blob),
}
