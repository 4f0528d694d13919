// The globals of a configuration.
use site_base::{Blob, Tree};

/// What a site takes from the globals of its configuration.
#[derive(Drop)]
pub struct Globals {
    /// `MaxConcurrentChecks`, if it is set; `Null` for a value that is no tree.
    pub max_checks: Option<Tree>,
    /// `SiteZone`, if it is set; `Null` for a value that is no tree.
    pub site_zone: Option<Tree>,
    /// The bytes of the file that `SiteZone` names; of no account if it names none.
    pub zone_file: Option<Blob>,
    /// `Vars`; `Null` without them.
    pub vars: Tree,
}
