// What a command line can ask for.
use run_text::Style;

/// What a command's own words ask for. Each but `gen` names files: a root, and what is read besides.
#[derive(Clone, Copy)]
pub enum Task<'a> {
    /// `check ROOT`: how many objects the files from the root on make.
    Check {
        root: &'a str,
    },
    /// `objects ROOT`: the objects that the files from the root on make.
    Objects {
        root: &'a str,
    },
    /// `replay ROOT SCRIPT`: the log of the script's turns over the site that they make, in a version, with downtimes that recur or don't.
    Replay {
        style: Style,
        recur: bool,
        root: &'a str,
        script: &'a str,
    },
    /// `daemon ROOT` or `daemon ROOT STATE`: the same of the world's turns, behind the entries of a state file, if one is named.
    Daemon {
        style: Style,
        recur: bool,
        root: &'a str,
        state: Option<&'a str>,
    },
    /// `gen N`: what is counted of the run of a generated site of so many hosts.
    Generate {
        hosts: u32,
    },
    /// `query ROOT SCRIPT QUERY`: what the query is answered once the script's turns are over.
    Query {
        root: &'a str,
        script: &'a str,
        query: &'a str,
    },
    /// `keep ROOT SCRIPT`: the state file of the entries that the script's turns leave.
    Keep {
        root: &'a str,
        script: &'a str,
    },
    /// `audit ROOT LOG`: whether a run writes the log.
    Audit {
        root: &'a str,
        log: &'a str,
    },
    /// `resume ROOT STATE SCRIPT`: the log of the script's turns behind the entries of a state file, in a version.
    Resume {
        style: Style,
        root: &'a str,
        state: &'a str,
        script: &'a str,
    },
}
